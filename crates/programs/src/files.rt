ghost use Rattle.std.specs.Prelude.{◌≡◌, ◌≢◌, [], IfOk, IfErr, IsOkAnd};
ghost use Rattle.std.specs.IoError.{error_kind};

use std::alloc::Global;
use std::io::ErrorKind;
use std::rt::Files;
use std::{fs, io};

/// What a file of the current folder holds; a missing file is an empty text.
pub fn text_of(rt: &(impl Files + AllocGlobal), file: &str) -> io::Result<Vec<u8>>
    ensures { IfErr result (λ e. error_kind e ≢ ErrorKind.NotFound) }
{
    or_empty(rt.alloc(), fs::read(rt, file))
}

// What was read, or an empty text if there is no such file.
fn or_empty(alloc: Global, read: io::Result<Vec<u8>>) -> io::Result<Vec<u8>>
    ensures found { IfOk read (λ text. result ≡ Ok text) }
    ensures missing { IfErr read (λ e. error_kind e ≡ ErrorKind.NotFound → IsOkAnd result (λ text. text.items ≡ [])) }
    ensures failed { IfErr read (λ e. error_kind e ≢ ErrorKind.NotFound → result ≡ Err e) }
{
    match read {
        Err(error) if error.kind() == ErrorKind::NotFound => Ok(Vec::new(alloc)),
        _ => read,
    }
}

#[cfg(test)]
mod tests {
    use super::*;
    use std::test::Fail;

    #[test]
    fn a_missing_file_is_an_empty_text(rt: HostRuntime) -> Result<(), Fail> {
        assert!(rt; text_of(&rt, "no_such_file.txt")?.is_empty());
        Ok(())
    }
}
