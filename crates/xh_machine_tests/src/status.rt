//! Each fault has its status and its line on standard error.
use xh_command_line::report;
use xh_script::{Fault, FaultKind};

/// Each fault, its status, and what is reported.
const REPORTS: &[(Fault, u8, &str)] = &[
    (
        Fault::Script {
            line: 3,
            kind: FaultKind::BadWord,
        },
        1,
        "xheap: line 3: BadWord\n",
    ),
    (Fault::Memory, 3, "xheap: out of memory\n"),
    (Fault::Read, 4, "xheap: read failed\n"),
    (Fault::Write, 4, "xheap: write failed\n"),
    (Fault::Gate, 5, "xheap: internal fault\n"),
    (Fault::BadConfig, 5, "xheap: internal fault\n"),
];

#[test]
fn faults_are_reported(rt: HostRuntime) {
    for (fault, wanted, text) in REPORTS {
        let mut err = Vec::new(rt.alloc());
        let status = report("xheap", *fault, &mut err);
        assert!(&rt;
            status == *wanted && err.as_slice() == text.as_bytes(),
            "{text}"
        );
    }
}
