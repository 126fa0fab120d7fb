ghost use Rattle.std.specs.Prelude.{◌≡◌, [], ◌∷◌, ◌++◌, OnOk};
ghost use Rattle.std.specs.Io.KnownBytes.{Appends};
ghost use Rattle.std.specs.IoError.{error_kind};
ghost use Rattle.std.specs.declared.io.Error.{Error as IoError};
ghost use Rattle.std.specs.declared.io.ErrorKind.TheVariants.{OutOfMemory};
ghost use Rattle.programs.specs.declared.stop.Stop.TheVariants.{Io, Refused as RefusedStop};
ghost use Rattle.programs.specs.Refused.{refused_text};
ghost use Rattle.programs.specs.Stops.{Ends, StopsBy};

use crate::message::Message;
use crate::refused::Refused;
use std::alloc::AllocError;
use std::io;
use std::io::Write;

/// Why a program ends before its work is done.
#[derive(Debug, Drop)]
pub enum Stop {
    Refused(Refused),
    Io(io::Error),
}

impl From<Refused> for Stop {
    ghost from_gives = { λ refused stop. stop ≡ RefusedStop refused };

    fn from(refused: Refused) -> Stop {
        Stop::Refused(refused)
    }
}

impl From<io::Error> for Stop {
    ghost from_gives = { λ error stop. stop ≡ Io error };

    fn from(error: io::Error) -> Stop {
        Stop::Io(error)
    }
}

impl From<AllocError> for Stop {
    ghost from_gives = { λ _ stop. (e : IoError) × (stop ≡ Io e) × (error_kind e ≡ OutOfMemory) };

    fn from(error: AllocError) -> Stop {
        Stop::Io(io::Error::from(error))
    }
}

/// Ends a program. A refusal is what it had to tell, and only an error of the system is a failure.
pub fn report<W: io::Write>(out: &mut W, outcome: Result<(), Stop>) -> io::Result<()>
    ensures { Ends (W.contents out.old) (W.contents out.new) outcome result }
{
    let Err(stop) = outcome else { return Ok(()) };
    match stop {
        Stop::Refused(refused) => tell(out, refused),
        Stop::Io(error) => Err(error),
    }
}

// Writes the line of a refusal at once, so that who reads it gets it whole, or nothing.
fn tell<W: io::Write>(out: &mut W, refused: Refused) -> io::Result<()>
    ensures { OnOk result (Appends (W.contents out.old) (W.contents out.new) (refused_text refused ++ (10 ∷ []))) }
{
    let mut line = Message::new();
    match writeln!(line, "{refused}") {
        Ok(()) => out.write_all(line.as_bytes()),
        // a file's name may be longer than a message
        Err(_) => writeln!(out, "{refused}"),
    }
}

#[cfg(test)]
mod tests {
    use super::*;
    use model::Refusal;
    use std::test::Fail;

    #[test]
    fn a_refusal_is_told_in_a_line(rt: HostRuntime) -> Result<(), Fail> {
        let refused = Refused::in_sheet(Refusal::UnknownName.at(12));
        let mut out = Vec::new(rt.alloc());
        report(&mut out, Err(Stop::from(refused)))?;
        assert_eq!(rt; out.as_slice(), b"sheet.txt refused 8 1 12\n".as_slice());
        Ok(())
    }

    // Counts the writes, and takes each whole.
    #[derive(Drop)]
    struct Writes {
        count: usize,
        bytes: usize,
    }

    impl io::Write for Writes {
        fn write(&mut self, buf: &[u8]) -> io::Result<usize> {
            self.count = self.count.saturating_add(1);
            self.bytes = self.bytes.saturating_add(buf.len());
            Ok(buf.len())
        }

        fn flush(&mut self) -> io::Result<()> {
            Ok(())
        }
    }

    #[test]
    fn a_refusal_is_told_in_one_write(rt: HostRuntime) -> Result<(), Fail> {
        let largest = Refusal::UnknownName.at(usize::MAX);
        let mut out = Writes { count: 0, bytes: 0 };
        report(&mut out, Err(Stop::from(Refused::in_sheet(largest))))?;
        assert_eq!(rt; (out.count, out.bytes), (1, 43));
        Ok(())
    }

    #[test]
    fn a_longer_line_is_told_too(rt: HostRuntime) -> Result<(), Fail> {
        let refused = Refused {
            file: "a_sheet_whose_name_alone_is_longer_than_what_a_message_has_room_for_in_one_go_ab.txt",
            fault: Refusal::UnknownName.at(12),
        };
        let mut out = Writes { count: 0, bytes: 0 };
        report(&mut out, Err(Stop::from(refused)))?;
        assert_eq!(rt; out.bytes, refused.file.len() + 16);
        Ok(())
    }
}
