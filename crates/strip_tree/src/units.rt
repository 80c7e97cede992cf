// Units of strips. The callers are the steps of strips and the beginning of their free.
ghost use Rattle.std.specs.Prelude.{◌≡◌, cond, Some, None};
ghost use Rattle.pieces.specs.StripUnits.{strip_unit, slot_of_unit, is_strip_unit};

use limits::index::Slot;

// The slot that begins at a unit, if one does.
pub fn slot_of(unit: usize) -> Option<Slot>
    ensures { result ≡ cond (is_strip_unit unit) (Some (slot_of_unit unit)) None }
{
    if unit < limits::UNITS {
        return None;
    }
    if limits::BOTH_UNITS <= unit {
        return None;
    }
    if unit % limits::SLOT_UNITS != 0 {
        return None;
    }
    Some(Slot::new((unit - limits::UNITS) / limits::SLOT_UNITS))
}

// The unit where a slot begins.
pub fn unit_of_slot(slot: Slot) -> u16
    ensures { result ≡ strip_unit slot }
{
    (limits::UNITS + limits::SLOT_UNITS * slot.get()) as u16
}
