// Elements of the ring of any degree, multiplication by the base, and the base of degree two. Definitions and laws only.
#![tactic(auto)]

// The operation of a call on two digits: addition's, and subtraction's of document 02, job 2.
#[derive(Clone, Copy)]
pub enum Operation {
    Plus,
    Minus,
}

// The degree of the ring (document 02, job 8): how many parts an element has.
#[derive(Clone, Copy)]
pub enum Degree {
    Two,
    Three,
    Four,
}
