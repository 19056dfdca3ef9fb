// Texts and kinds of errors.
use hound_number::{ReadError, early_end};
use hound_spec::Error;
use std::alloc::Global;
use std::io;
use std::io::ErrorKind;
use std::test::Fail;

#[test]
fn an_early_end_has_the_words_of_the_original(rt: HostRuntime) -> Result<(), Fail> {
    for error in [io::Error::from(ReadError::Ended), early_end()] {
        let words = format!(in rt.alloc(); "{error}")?;
        let is_said = words.as_str() == "Failed to read enough bytes.";
        assert_eq!(rt; (error.kind(), is_said), (ErrorKind::Other, true));
    }
    Ok(())
}

// Whether an error of this kind keeps its kind and its text.
fn is_kept(alloc: Global, kind: ErrorKind) -> Result<bool, Fail> {
    let text = format!(in alloc; "{}", io::Error::from(kind))?;
    let error = Error::from(io::Error::from(kind));
    let words = format!(in alloc; "{error}")?;
    Ok(matches!(&error, Error::IoError(e) if e.kind() == kind) && words.as_str() == text.as_str())
}

#[test]
fn a_fault_of_the_input_keeps_its_kind_and_text(rt: HostRuntime) -> Result<(), Fail> {
    for kind in [
        ErrorKind::Interrupted,
        ErrorKind::WriteZero,
        ErrorKind::Other,
    ] {
        assert!(rt; is_kept(rt.alloc(), kind)?, "{kind:?}");
    }
    Ok(())
}
