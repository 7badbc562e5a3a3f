// What the claims speak of, for programs in other languages: each function of the library for C is called here, under the promise that the sentences of
// `claims` start from.
#![tactic(auto)]

pub mod library;
