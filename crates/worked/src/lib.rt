// Worked rows: what small settings count, and what is answered of them.
#![tactic(auto)]

ghost use Rattle.std.specs.Prelude.{◌≡◌};
ghost use Rattle.worked.specs.Rows.{WorkedRows};

// How many rows there are; each of them holds of the definitions.
pub fn rows() -> u8
    ensures stand { WorkedRows }
    ensures count { result ≡ 10 }
{
    10
}
