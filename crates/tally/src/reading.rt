//! The numbers of a record.
ghost use Rattle.std.specs.Prelude.{◌≡◌, List, [], ◌∷◌, ◌++◌, IfOk, IsErrOf};
ghost use Rattle.std.specs.List.{AllZip};
ghost use Rattle.tally.specs.Reasons.{reason_text};
ghost use Rattle.tally.specs.declared.reading.BadRecord.TheVariants.{OutOfMemory};
ghost use Rattle.std.specs.Iterator.{IsFinite, Drains, Yields};

use std::alloc::{AllocFailed, Global};
use std::error::Error;
use std::fmt;
use std::str::FromStr;

/// Why a record gives no numbers: a word is none, with the reason that reading it gave, or memory ran out.
#[derive(Clone, Copy, Drop, PartialEq, Eq, Debug)]
pub enum BadRecord<E> {
    NotANumber(E),
    OutOfMemory,
}

impl<E: fmt::Display> fmt::Display for BadRecord<E> {
    ghost output = { reason_text E.output };

    fn fmt<W: fmt::Write>(&self, f: &mut fmt::Formatter<W>) -> fmt::Result {
        match self {
            BadRecord::NotANumber(reason) => write!(f, "{reason}"),
            BadRecord::OutOfMemory => write!(f, "memory allocation failed"),
        }
    }
}

impl<E: Error> Error for BadRecord<E> {}

impl<T: Drop, E> From<AllocFailed<T>> for BadRecord<E> {
    ghost from_gives = { λ _ e. e ≡ OutOfMemory };

    fn from(_unpushed: AllocFailed<T>) -> BadRecord<E> {
        Self::OutOfMemory
    }
}

/// The numbers that words say, in their order.
#[tactic(auto, using(std::proofs::lemmas::Slice::Zip::all_zipped_more))]
pub fn numbers<'a, T: FromStr + Drop, W: Iterator<Item = &'a str> + Drop>(
    heap: Global,
    words: W,
) -> Result<Vec<T>, BadRecord<T::Err>>
where
    T::Err: Drop,
    requires can { W.can_next words }
    requires ends { IsFinite (W.remaining words) }
    ensures refused { (e : T.Err) → IsErrOf result (BadRecord.NotANumber e) → (ws : List _) × (w : _) × (t : W) × Yields W.next_gives words (ws ++ w ∷ []) t × T.from_str_gives w.now (Err e) }
    ensures said { IfOk result (λ v. (ws : List _) × Drains W.next_gives words ws × AllZip (λ w n. T.from_str_gives w.now (Ok n)) ws v.items) }
{
    let mut numbers = Vec::new(heap);
    for word in words {
        let number = word.parse().map_err(BadRecord::NotANumber)?;
        numbers.push(number)?;
    }
    Ok(numbers)
}
