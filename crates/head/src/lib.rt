// The head of a register: one small record that a caller keeps beside it. The functions are for the crates above and no public calls.
#![tactic(auto)]

ghost use Rattle.std.specs.Prelude.{◌≡◌};
ghost use Rattle.head.specs.Head.{zero_head, same_head};

use answer::Refusal;
use value::{DIGEST, Digest};

// The record count, the root's layer and the root's digest.
#[derive(Clone, Copy, PartialEq, Eq)]
#[repr(C)]
pub struct Head {
    pub count: u32,
    pub layer: u32,
    pub digest: Digest,
}

// What a call gives back that has a head beside its answer.
#[derive(Clone, Copy)]
pub struct Headed {
    pub answer: Result<u32, Refusal>,
    pub head: Head,
}

// The head of zeros.
pub fn zero_head() -> Head
    ensures { result ≡ zero_head }
{
    Head {
        count: 0,
        layer: 0,
        digest: [0u8; DIGEST],
    }
}

// Whether two heads have the same fields.
pub fn same_head(head: Head, other: Head) -> bool
    ensures { result ≡ same_head head other }
{
    head == other
}
