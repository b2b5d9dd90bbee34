// Sets of slots as words, from a table: slot s is a member where bit s is 1.
ghost use Rattle.std.specs.Prelude.{ltb};
ghost use Rattle.reading.specs.Pattern.{named, IsSlotSet};

// The card: word w has the slots under w.
const SLOTS_UNDER: [u32; 33] = [
    0, 1, 3, 7, 15, 31, 63, 127, 255, 511, 1023, 2047, 4095, 8191, 16383, 32767, 65535, 131071,
    262143, 524287, 1048575, 2097151, 4194303, 8388607, 16777215, 33554431, 67108863, 134217727,
    268435455, 536870911, 1073741823, 2147483647, 4294967295,
];

// The slots under a width. There are 32, so a width over 32 has the word of 32.
pub fn slots_under(width: usize) -> u32
    ensures { IsSlotSet (λ slot. ltb slot width) result }
{
    SLOTS_UNDER[width.min(32)]
}

// The slots that first and last name. Between first and last + 1 lie the slots that are under one of the two and not under the other. Where first isn't
// over last these are named, and else all others.
pub fn slot_set(first: u8, last: u8) -> u32
    ensures { IsSlotSet (named first last) result }
{
    let between = slots_under(last as usize + 1) ^ slots_under(first as usize);
    if first <= last {
        between
    } else {
        between ^ slots_under(32)
    }
}
