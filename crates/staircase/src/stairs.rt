// A staircase: points that repeat, in bytes that are borrowed and not copied.
ghost use Rattle.std.specs.Prelude.{◌≡◌, true, length, map};
ghost use Rattle.base.specs.Numbers.{number};
ghost use Rattle.staircase.specs.Stairs.{head_ok, points_ok};

// The points, four bytes each, highest first; they repeat after `repeat` ticks.
#[derive(Clone, Copy)]
pub struct Staircase<'a> {
    points: &'a [[u8; 4]],
    repeat: u32,
    ghost head: { head_ok (length points.now) repeat ≡ true },
    ghost rising: { points_ok repeat (map (number 4 0) points.now) ≡ true },
}

// Why there is no such staircase.
#[derive(Clone, Copy, PartialEq, Eq, Debug)]
pub enum StaircaseFault {
    // too many points, too long a repeat, or one of both zero
    Head,
    // fewer bytes than the points need
    Missing,
    // the first point is not 1, or they do not rise strictly, or the last is above the repeat
    Points,
}

pub mod methods;
