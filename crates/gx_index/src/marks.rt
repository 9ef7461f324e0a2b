//! The sides on which slots are ends, made of the slots of sources and of destinations.

ghost use Rattle.std.specs.Prelude.{◌≡◌, ◌<◌, All, IfOk, get_or, length};
ghost use Rattle.gx_index.specs.Ends.{AreSidesBySlot, has_slot, no_sides, with_destinations, with_sources};

use gx_rows::{NoMemory, Sides};
use std::alloc::Global;

/// By slot, whether it is among `srcs`, and whether it is among `dsts`.
pub fn sides_of_slots(
    alloc: Global,
    len: u32,
    srcs: &[u32],
    dsts: &[u32],
) -> Result<Vec<Sides>, NoMemory>
    requires sources { All (λ n. n < len) srcs.now }
    requires destinations { All (λ n. n < len) dsts.now }
    ensures { IfOk result (λ sides. AreSidesBySlot len srcs.now dsts.now sides.items) }
{
    let none = Sides {
        src: false,
        dst: false,
    };
    let mut sides = vec![in alloc; none; len as usize]?;
    mark_sources(&mut sides, srcs);
    mark_destinations(&mut sides, dsts);
    Ok(sides)
}

fn mark_sources(sides: &mut Vec<Sides>, slots: &[u32])
    requires { All (λ n. n < length sides.old.items) slots.now }
    ensures { sides.new.items ≡ with_sources sides.old.items slots.now }
{
    let mut rest = slots;
    while let [slot, after @ ..] = rest {
        let dst = sides[*slot as usize].dst;
        sides[*slot as usize] = Sides { src: true, dst };
        rest = after;
    }
}

fn mark_destinations(sides: &mut Vec<Sides>, slots: &[u32])
    requires { All (λ n. n < length sides.old.items) slots.now }
    ensures { sides.new.items ≡ with_destinations sides.old.items slots.now }
{
    let mut rest = slots;
    while let [slot, after @ ..] = rest {
        let src = sides[*slot as usize].src;
        sides[*slot as usize] = Sides { src, dst: true };
        rest = after;
    }
}
