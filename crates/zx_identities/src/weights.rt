//! All basis states of low weight.

ghost use Rattle.std.specs.Prelude.{◌≡◌, ◌≤◌, ◌<◌, ◌-◌, ◌%◌, ◌^◌, ◌↔◌, true, false, map};
ghost use Rattle.zx_model.specs.Phase.{turn};
ghost use Rattle.zx_identities.specs.Internal.Packing.{counted, here, flipped, AreZero};

use crate::packing::Group;

/// Whether the phase is 0 where the walk stands, and where at most so many bits are set besides, from a
/// place on.
pub(crate) fn are_zero(groups: &mut [Group], place: usize, bits: usize, most: u8) -> bool
    requires place { place ≤ bits }
    requires few { bits ≤ 128 }
    ensures back { groups.new ≡ groups.old }
    ensures zero { (result ≡ true) ↔ AreZero groups.old place (bits - place) most }
{
    if most == 0 || place == bits {
        return phase_here(groups) == 0;
    }
    if !are_zero(groups, place + 1, bits, most) {
        return false;
    }
    if !is_used(groups, place) {
        return true;
    }
    flip(groups, place);
    let zero = are_zero(groups, place + 1, bits, most - 1);
    flip(groups, place);
    zero
}

// The phase where the walk stands, in sixteenth turns.
fn phase_here(groups: &[Group]) -> u32
    ensures { result ≡ here groups.now % turn }
{
    let mut phase = 0;
    for group in groups {
        phase = (phase + phase_of(group)) % 16;
    }
    phase
}

// The sum of the phases of a group that count where the walk stands.
fn phase_of(group: &Group) -> u32
    ensures value { result ≡ counted group.now group.now.odd }
    ensures small { result < 2 ^ 16 }
{
    (group.odd & group.ones).count_ones()
        + 2 * (group.odd & group.twos).count_ones()
        + 4 * (group.odd & group.fours).count_ones()
        + 8 * (group.odd & group.eights).count_ones()
}

// Whether a parity has a bit set.
fn is_used(groups: &[Group], place: usize) -> bool
    requires { place < 128 }
    ensures { result ≡ false → map (flipped place) groups.now ≡ groups.now }
{
    for group in groups {
        if group.rows[place] != 0 {
            return true;
        }
    }
    false
}

// Sets a bit of the basis state where the walk stands, or unsets it.
fn flip(groups: &mut [Group], place: usize)
    requires { place < 128 }
    ensures { groups.new ≡ map (flipped place) groups.old }
{
    for i in 0..groups.len() {
        let row = groups[i].rows[place];
        groups[i].odd ^= row;
    }
}
