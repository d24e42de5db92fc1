// Broken rules of one file and their order.
#![tactic(auto)]

ghost use Rattle.std.specs.Prelude.{◌≡◌};
ghost use Rattle.word.specs.inner.Listed.{listed};
ghost use Rattle.fault.specs.Fault as spec;

pub mod outcome;

// A broken rule: the record, the field, the sub and the kind. Record 0 is the header. Faults are ordered by their parts in this order.
#[derive(Clone, Copy, Debug, PartialEq, Eq, PartialOrd, Ord)]
pub struct Fault {
    pub record: u32,
    pub field: u8,
    pub sub: u32,
    pub kind: u8,
}

// Where a value stands: in a record, and in an item of it. Record 0 is the header.
#[derive(Clone, Copy, Debug, PartialEq, Eq)]
pub struct Place {
    pub record: u32,
    pub sub: u32,
}

impl Place {
    // A field's fault, or none where the kind is 0.
    #[tactic(auto, unfolding(crate::specs::Fault::faulty, crate::specs::Fault::least, crate::specs::Fault::lesser))]
    pub fn broken(self, field: u8, kind: u8) -> Option<Fault>
        ensures { result ≡ spec.least (spec.faulty self field (listed kind)) }
    {
        if kind == 0 {
            None
        } else {
            Some(Fault {
                record: self.record,
                field,
                sub: self.sub,
                kind,
            })
        }
    }
}

// The lesser of two. Not by a pair of them, which would be a copy of both for each row of an object.
#[tactic(auto, unfolding(crate::specs::Fault::lesser))]
pub fn lesser(a: Option<Fault>, b: Option<Fault>) -> Option<Fault>
    ensures { result ≡ spec.lesser a b }
{
    let Some(x) = a else {
        return b;
    };
    let Some(y) = b else {
        return Some(x);
    };
    if y.cmp(&x).is_lt() { Some(y) } else { Some(x) }
}
