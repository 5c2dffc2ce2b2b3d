//! Partitions packed into words, so that one is found fast among many.

ghost use Rattle.std.specs.Prelude.{◌≡◌, ◌<◌, ◌^◌, List, IfOk};
ghost use Rattle.si_insert.specs.declared.partition.Class.{Class as ClassValue};
ghost use Rattle.si_map.specs.Loops.Packed.{ArePacked, ArePacking, digit};

use si_base::ids::NoMemory;
use si_insert::partition::Class;
use std::alloc::Global;

/// A word below this has room for one more class.
const FULL: u64 = 1 << 62;

/// The classes as words, which no other classes have. Behind the highest 1 of a word each class
/// has two bits. It fails only where memory runs out.
pub(crate) fn packed(alloc: Global, classes: &[Class]) -> Result<Vec<u64>, NoMemory>
    ensures { IfOk result (λ words. ArePacked classes.now words.items) }
{
    let mut words = Vec::new(alloc);
    let mut word = 1;
    for class in classes {
        let room = with_room(&mut words, word)?;
        word = 4 * room + digit_of(*class);
    }
    words.push(word)?;
    Ok(words)
}

/// The word for the next class: this one, or a new one where it is full, and put behind the others.
fn with_room(words: &mut Vec<u64>, word: u64) -> Result<u64, NoMemory>
    ensures room { IfOk result (λ room. room < 2 ^ 62) }
    ensures same { IfOk result (λ room. (classes : List ClassValue)
        → ArePacking classes words.old.items word → ArePacking classes words.new.items room) }
{
    if word < FULL {
        return Ok(word);
    }
    words.push(word)?;
    Ok(1)
}

/// The two bits of a class.
fn digit_of(class: Class) -> u64
    ensures is { result ≡ digit class }
    ensures small { result < 4 }
{
    match class {
        Class::Low => 0,
        Class::Rising => 1,
        Class::High => 2,
        Class::Falling => 3,
    }
}
