//! What no clause says: that with ample memory a script is done. Texts, values and refusals are the scripts of tests/.

use crate::play;
use hv_outer::{MemSink, MemSource};
use std::alloc::Global;
use std::test::Fail;

const SCRIPT: &str =
    "{\"s\":0,\"msg\":{\"id\":1,\"op\":\"load\",\"table\":{\"inline\":{\"parts\":[\"x,y\\n5,a\\n,b\\n-2,c\",\"x,y\\n9,d\"],\"schema\":[[\"x\",\"int\"]]}}}}\n{\"s\":0,\"msg\":{\"id\":2,\"op\":\"view\",\"of\":0,\"view\":{\"col\":\"x\",\"kind\":\"range\"}}}\n";

const OUTPUT: &str =
    "{\"line\":1,\"out\":{\"id\":1,\"made\":0},\"s\":0}\n{\"line\":3,\"out\":{\"id\":2,\"last\":true,\"parts\":[0,1],\"value\":{\"count\":3,\"max\":9,\"min\":-2,\"missing\":1,\"sum\":\"12\"}},\"s\":0}\n";

/// The words of the command.
fn words(alloc: Global) -> Result<Vec<String>, Fail> {
    let mut words = Vec::new(alloc);
    words.push(String::from_str(alloc, "play")?)?;
    Ok(words)
}

/// The script, of which the reads with these numbers fail.
fn script(alloc: Global, failing: Vec<u64>) -> Result<MemSource, Fail> {
    Ok(MemSource::new(SCRIPT.as_bytes().to_vec(alloc)?, failing))
}

#[test]
fn a_script_is_played(rt: HostRuntime) -> Result<(), Fail> {
    let alloc = rt.alloc();
    let mut source = script(alloc, Vec::new(alloc))?;
    let mut sink = MemSink::new(alloc, u64::MAX);
    assert_eq!(rt; play(alloc, &words(alloc)?, &mut source, &mut sink), 0);
    assert_eq!(rt; sink.contents(), OUTPUT.as_bytes());
    Ok(())
}

#[test]
fn a_failed_write_leaves_a_right_beginning(rt: HostRuntime) -> Result<(), Fail> {
    let alloc = rt.alloc();
    let mut source = script(alloc, Vec::new(alloc))?;
    let mut sink = MemSink::new(alloc, 100);
    assert_eq!(rt; play(alloc, &words(alloc)?, &mut source, &mut sink), 4);
    assert_eq!(rt; sink.faults(), 1);
    assert_eq!(rt; sink.contents().len(), 100);
    assert!(rt; OUTPUT.as_bytes().starts_with(sink.contents()));
    Ok(())
}

#[test]
fn a_failed_read_and_bad_words_write_nothing(rt: HostRuntime) -> Result<(), Fail> {
    let alloc = rt.alloc();
    let mut source = script(alloc, vec![in alloc; 1u64; 1]?)?;
    let mut sink = MemSink::new(alloc, u64::MAX);
    assert_eq!(rt; play(alloc, &Vec::new(alloc), &mut source, &mut sink), 2);
    assert_eq!(rt; play(alloc, &words(alloc)?, &mut source, &mut sink), 3);
    assert_eq!(rt; source.faults(), 1);
    assert!(rt; sink.contents().is_empty());
    Ok(())
}
