// The class of a job: it belongs to the typical load, or to a rare overload.
ghost use Rattle.std.specs.Prelude.{Some, codes};
ghost use Rattle.arrival.specs.declared.class.Class.TheVariants.{Typical, Overload};

use std::fmt;

#[derive(Clone, Copy, PartialEq, Eq, Debug)]
pub enum Class {
    Typical,
    Overload,
}

impl fmt::Display for Class {
    ghost output = { λ k. Some (elim k [ Typical ↦ codes "typical" | Overload ↦ codes "overload" ]) };

    fn fmt<W: fmt::Write>(&self, f: &mut fmt::Formatter<W>) -> fmt::Result {
        f.write_str(match self {
            Class::Typical => "typical",
            Class::Overload => "overload",
        })
    }
}
