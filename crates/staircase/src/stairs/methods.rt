// Making a staircase, and its counts.
ghost use Rattle.std.specs.Prelude.{◌≡◌, ◌<◌, ◌≤◌, [], length, map, Decides};
ghost use Rattle.base.specs.Faults.{Becomes, in_numbers};
ghost use Rattle.base.specs.Numbers.{number};
ghost use Rattle.staircase.specs.Laws.{staircase_laws};
ghost use Rattle.staircase.specs.Stairs.{head_ok, points_ok, stairs, stairs_count, up_to};
ghost use Rattle.staircase.specs.Values.{fault_number, stairs_of};

use super::{Staircase, StaircaseFault};
use arrival::curve::ArrivalCurve;

const MAX_POINTS: u16 = 64;

const MAX_REPEAT: u32 = 1_000_000;

fn point(bytes: &[u8; 4]) -> u32
    ensures { result ≡ number 4 0 bytes.now }
{
    u32::from_be_bytes(*bytes)
}

fn head_fits(n: u16, repeat: u32) -> bool
    ensures { result ≡ head_ok n repeat }
{
    n <= MAX_POINTS && repeat <= MAX_REPEAT && (n == 0) == (repeat == 0)
}

// Whether p may come behind the point `last`, or first where `last` is 0.
fn may_follow(last: u32, p: u32) -> bool
    ensures { Decides result ((last < p) × (last ≡ 0 → p ≡ 1)) }
{
    if last == 0 { p == 1 } else { last < p }
}

// Whether the points start at 1, rise strictly and end at most at `repeat`.
fn rising(points: &[[u8; 4]], repeat: u32) -> bool
    ensures { result ≡ points_ok repeat (map (number 4 0) points.now) }
{
    let mut last = 0;
    for bytes in points {
        let p = point(bytes);
        if !may_follow(last, p) {
            return false;
        }
        last = p;
    }
    last <= repeat
}

impl<'a> Staircase<'a> {
    // The staircase without points.
    pub fn empty() -> Staircase<'a>
        ensures { stairs_of result ≡ record { repeat = 0; points = [] } }
    {
        Staircase {
            points: &[],
            repeat: 0,
        }
    }

    // The staircase of n points that lie at the front of `bytes`.
    #[tactic(auto, using(std::proofs::lemmas::Grind::common_steps, crate::proofs::Chunks::points_in_chunks))]
    pub fn new(n: u16, repeat: u32, bytes: &'a [u8]) -> Result<Staircase<'a>, StaircaseFault>
        ensures { in_numbers stairs_of fault_number result ≡ stairs n repeat bytes.now }
    {
        if !head_fits(n, repeat) {
            return Err(StaircaseFault::Head);
        }
        let (all, _) = bytes.as_chunks::<4>();
        let (points, _) = all
            .split_at_checked(n as usize)
            .ok_or(StaircaseFault::Missing)?;
        if !rising(points, repeat) {
            return Err(StaircaseFault::Points);
        }
        Ok(Staircase { points, repeat })
    }

    // Becomes the staircase of n points at the front of `bytes`, in place, as its owner holds it; refused, it stays.
    pub fn fill(&mut self, n: u16, repeat: u32, bytes: &'a [u8]) -> Result<(), StaircaseFault>
        ensures { Becomes stairs_of fault_number (stairs n repeat bytes.now) result self.old self.new }
    {
        *self = Staircase::new(n, repeat, bytes)?;
        Ok(())
    }

    // How many points are not above `rest`, by halving. `partition_point` was tried, and took up to 2.4 times the time; so were
    // places of 64 bits, up to 2.7 times: the compiler then jumps where it now chooses.
    fn up_to(&self, rest: u32) -> u16
        ensures value { result ≡ up_to rest (stairs_of self.now).points }
        ensures bound { result ≤ length self.now.points.now }
    {
        // a single point is 1
        if self.points.len() == 1 {
            return rest.min(1) as u16;
        }
        let mut low = 0;
        let mut high = self.points.len() as u16;
        while low < high {
            let middle = low + (high - low) / 2;
            if point(&self.points[middle as usize]) <= rest {
                low = middle + 1;
            } else {
                high = middle;
            }
        }
        low
    }
}

impl<'a> ArrivalCurve for Staircase<'a> {
    ghost counts = { λ s. stairs_count (stairs_of s) };

    ghost lawful = { staircase_laws };

    #[tactic(auto, using(crate::proofs::Counts::whole_at_most, crate::proofs::Counts::count_at_most))]
    fn count(&self, length: u32) -> u32 {
        if self.points.is_empty() {
            return 0;
        }
        let whole = self.points.len() as u32 * (length / self.repeat);
        whole + self.up_to(length % self.repeat) as u32
    }
}
