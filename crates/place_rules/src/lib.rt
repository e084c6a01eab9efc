// No function: conversion place by place as definitions, of a row of input indexes and the alphabet indexes that come out of it.
#![tactic(auto)]
