//! Tests the text of reports.
use crate::tests::rows::expect_at;
use qolb_script::{Report, Watched, write_report};
use std::test::Fail;

/// Reports, each with its text.
static REPORTS: [(Report, &str); 3] = [
    (
        Report::Board {
            stored: 2,
            full: 0,
            taken: 2,
            empty: 1,
            left: 0,
        },
        "stored 2\nfull 0\ntaken 2\nempty 1\nleft 0\n",
    ),
    (
        Report::Bank {
            paid_in: 10,
            paid_out: 1,
            total: 9,
        },
        "in 10\nout 1\ntotal 9\n",
    ),
    (
        Report::Bank {
            paid_in: 340282366920938463463374607431768211455,
            paid_out: 18446744073709551616,
            total: 0,
        },
        "in 340282366920938463463374607431768211455\nout 18446744073709551616\ntotal 0\n",
    ),
];

#[test]
fn reports_are_written_a_line_for_each_number(rt: HostRuntime) -> Result<(), Fail> {
    for (report, text) in &REPORTS {
        let mut written = Vec::new(rt.alloc());
        let mut out = Watched::new(&mut written);
        write_report(report, &mut out)?;
        let failed = out.failed();
        drop(out);
        let found = (failed, written.as_slice());
        expect_at(&rt, report, found, (false, text.as_bytes()));
    }
    Ok(())
}
