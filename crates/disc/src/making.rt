// Why no new disc was made.
ghost use Rattle.std.specs.Prelude.{◌≡◌, Some};
ghost use Rattle.disc.specs.Texts.{not_made_text};
ghost use Rattle.disc.specs.declared.making.NotMade.TheVariants.{Memory};

use std::alloc::AllocError;
use std::error::Error;
use std::fmt;

#[derive(Clone, Copy, Debug, PartialEq, Eq)]
pub enum NotMade {
    // The journal could not hold the records that it must.
    ShortJournal,
    // The journal has more blocks than are allowed.
    LongJournal,
    Memory,
}

// By hand, here and for the other errors, since a derive would write no clause.
impl fmt::Display for NotMade {
    ghost output = { λ e. Some (not_made_text e) };

    fn fmt<W: fmt::Write>(&self, f: &mut fmt::Formatter<W>) -> fmt::Result {
        f.write_str(match self {
            NotMade::ShortJournal => "the journal is too short for the longest records",
            NotMade::LongJournal => "the journal has more than 1048576 blocks",
            NotMade::Memory => "no memory for the disc",
        })
    }
}

impl Error for NotMade {}

impl From<AllocError> for NotMade {
    ghost from_gives = { λ _ e. e ≡ Memory };

    fn from(_e: AllocError) -> NotMade {
        NotMade::Memory
    }
}

#[cfg(test)]
mod tests {
    use super::*;
    use crate::few::NoRoom;
    use crate::header::OutOfRange;
    use std::test::Fail;

    #[test]
    fn errors_are_printed(rt: HostRuntime) -> Result<(), Fail> {
        let heap = rt.alloc();
        let short = format!(in heap; "{}", NotMade::ShortJournal)?;
        assert_eq!(rt;
            short.as_str(),
            "the journal is too short for the longest records"
        );
        let long = format!(in heap; "{}", NotMade::LongJournal)?;
        assert_eq!(rt; long.as_str(), "the journal has more than 1048576 blocks");
        let memory = format!(in heap; "{}", NotMade::Memory)?;
        assert_eq!(rt; memory.as_str(), "no memory for the disc");
        let others = format!(in heap; "{NoRoom}; {OutOfRange}")?;
        assert_eq!(rt;
            others.as_str(),
            "there is no room for so many; a number of the market is out of range"
        );
        Ok(())
    }
}
