use super::*;
use std::test::Fail;
use uid_names::{ByteList, ItemList};

/// The words of two lines are those of the process, without comments, with its texts in their shortest form.
#[test]
fn words_stand_behind_a_process(rt: HostRuntime) -> Result<(), Fail> {
    let source = b"node a\n a.1  lock x w # comment\na.2 lock x r\na.1\tstore x 0 \"\\x41 #\" \r\n";
    let words = words_of(rt.alloc(), source, b"a.1")?;
    let words = words.items();
    assert_eq!(rt; words.len(), 2);
    assert_eq!(rt; words[0].bytes(), b"lock x w".as_slice());
    assert_eq!(rt; words[1].bytes(), b"store x 0 \"A #\"".as_slice());
    Ok(())
}
