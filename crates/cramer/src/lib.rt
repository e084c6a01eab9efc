// That multiplication by the base is injective where its determinant isn't zero. A theorem only, apart from the ring's since its identities take seconds.
#![tactic(auto)]
