//! Runs of a script on the serial machine.
use std::alloc::Global;
use std::io::Read;
use std::process::Abort;
use xh_core::Config;
use xh_runner::run_serial;
use xh_script::{Fault, Watched};

/// One arena of 256 bytes.
pub(crate) const SMALL: Config = Config {
    arenas: 1,
    bytes: 256,
    records: 256,
    depth: 4,
    wear: 9_223_372_036_854_775_807,
};

/// Two processes, of which one gives the other two blocks.
pub(crate) const SCRIPT: &[u8] =
    b"process a\nprocess b\nwire a e b f 0\na alloc x 40 0\na alloc y 16 0\na give e 7 x y\na give e 7 x\nb take f p q\nb write p 0 beef\nb read p 0 4\n";

/// How a run ended, and what it wrote.
pub(crate) fn run_alone(
    alloc: Global,
    config: Config,
    input: impl Read + Drop,
) -> (Result<(), Fault>, Vec<u8>) {
    let mut reader = Watched::new(input);
    let mut out = Vec::new(alloc);
    let mut writer = Watched::new(&mut out);
    let ended = run_serial(alloc, &mut reader, &mut writer, config);
    (ended, out)
}

/// The run ends by this fault, and nothing is written.
pub(crate) fn assert_fails(
    rt: &impl Abort,
    alloc: Global,
    config: Config,
    input: impl Read + Drop,
    fault: Fault,
) {
    let (ended, text) = run_alone(alloc, config, input);
    assert!(rt; ended == Err(fault) && text.is_empty(), "{fault:?}");
}
