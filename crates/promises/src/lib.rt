// What the claims speak of: each function that a user calls is called here, under the promise that the sentences of `claims` start from. So a contract
// below that comes to promise less is refused here.
#![tactic(auto)]

pub mod captures;
pub mod events;
pub mod parsers;
pub mod parts;
pub mod writers;
