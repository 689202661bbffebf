//! What a slot's word and a ticket consist of. The high half of both is the generation: how often the slot was used before.
ghost use Rattle.std.specs.Prelude.{◌≡◌, ◌%◌, ◌^◌, ◌<◌};
ghost use Rattle.counted_slot.specs.Counting.{readers};
ghost use Rattle.word_slots.specs.Tickets.{ticket_slot, ticket_generation};

use counted_slot::{FREE, ONE_READER};

const HALF: u64 = 0x1_0000_0000;

/// The generation of a word or a ticket.
pub fn generation_of(number: u64) -> u64
    ensures { (result ≡ ticket_generation number) × (result < 4294967296) }
{
    number / HALF
}

/// The slot's index that a ticket names.
pub fn index_of(ticket: u64) -> u64
    ensures { (result ≡ ticket_slot ticket) × (result < 4294967296) }
{
    ticket % HALF
}

/// The state in a word: one of those of `counted_slot`.
pub fn state_of(word: u64) -> u64
    ensures { result ≡ word % 4 }
{
    word % 4
}

/// How many readers a word counts.
pub fn readers_of(word: u64) -> u64
    ensures { result ≡ readers word }
{
    word % HALF / ONE_READER
}

/// The ticket of a slot in a generation.
pub fn ticket_of(generation: u64, index: u64) -> u64
    requires { (generation < 4294967296) × (index < 4294967296) }
    ensures slot { ticket_slot result ≡ index }
    ensures generation { ticket_generation result ≡ generation }
{
    generation * HALF + index
}

/// The word of a slot in a generation, with no reader, in this state.
pub fn word_of(generation: u64, state: u64) -> u64
    requires { (generation < 4294967296) × (state < 4) }
    ensures { (result % 4 ≡ state) × (readers result ≡ 0) }
{
    generation * HALF + state
}

/// The word of a slot that becomes free after it had this word. In its last generation the slot keeps that, and isn't used again.
pub fn vacated(word: u64) -> u64
    ensures { (result % 4 ≡ 0) × (readers result ≡ 0) }
{
    let generation = generation_of(word);
    if generation == HALF - 1 {
        return word_of(generation, FREE);
    }
    word_of(generation + 1, FREE)
}
