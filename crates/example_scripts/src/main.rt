//! Runs the example scripts and compares their output with the stored answers.
#![tactic(auto)]

mod compare;

use anyhow::{Context, ensure};
use compare::{Form, compare, compare_picture, refuses_others};
use qolb_script::WorkKind;
use std::alloc::Global;
use std::fs;
use std::rt::Files;
use std::sync::Wait;
use std::thread::Threads;

/// An example: a script `NAME.txt`, its expected output `NAME.out`, and for a script that a page shows, the picture
/// `NAME.svg`.
#[derive(Clone, Copy)]
struct Example {
    name: &'static str,
    form: Form,
    is_drawn: bool,
}

/// All examples.
static EXAMPLES: [Example; 15] = [
    Example {
        name: "hand_over",
        form: Form::Schedule,
        is_drawn: true,
    },
    Example {
        name: "three_nodes_queue",
        form: Form::Schedule,
        is_drawn: false,
    },
    Example {
        name: "two_lines",
        form: Form::Schedule,
        is_drawn: false,
    },
    Example {
        name: "withdraw_and_close",
        form: Form::Schedule,
        is_drawn: true,
    },
    Example {
        name: "lease_of_two",
        form: Form::Schedule,
        is_drawn: false,
    },
    Example {
        name: "late_linker",
        form: Form::Steps,
        is_drawn: true,
    },
    Example {
        name: "hand_over_by_link",
        form: Form::Steps,
        is_drawn: true,
    },
    Example {
        name: "passed_by_the_list",
        form: Form::Steps,
        is_drawn: false,
    },
    Example {
        name: "board_of_one",
        form: Form::Work(WorkKind::Board),
        is_drawn: false,
    },
    Example {
        name: "bank_of_one",
        form: Form::Work(WorkKind::Bank),
        is_drawn: false,
    },
    Example {
        name: "whole_line",
        form: Form::Schedule,
        is_drawn: false,
    },
    Example {
        name: "letting_go",
        form: Form::Steps,
        is_drawn: false,
    },
    Example {
        name: "yet_to_free",
        form: Form::Steps,
        is_drawn: false,
    },
    Example {
        name: "move_to_itself",
        form: Form::Work(WorkKind::Bank),
        is_drawn: false,
    },
    Example {
        name: "workers_pay_in",
        form: Form::Work(WorkKind::Bank),
        is_drawn: false,
    },
];

fn main(rt: HostRuntime) -> anyhow::Result<()> {
    let scripts = files_that_end(&rt, ".txt")?;
    ensure!(
        scripts == EXAMPLES.len(),
        "{scripts} scripts, and not each is named"
    );
    let pictures = files_that_end(&rt, ".svg")?;
    let drawn = EXAMPLES.iter().filter(|example| example.is_drawn).count();
    ensure!(
        pictures == drawn,
        "{pictures} pictures, and not each is named"
    );
    refuses_others(&rt, rt.alloc())?;
    println!(rt; "another answer: refused")?;
    for example in EXAMPLES {
        check(&rt, rt.alloc(), example)?;
        println!(rt; "{}: answered", example.name)?;
        if example.is_drawn {
            check_picture(&rt, rt.alloc(), example)?;
            println!(rt; "{}: drawn", example.name)?;
        }
    }
    Ok(())
}

/// Returns the number of files in the current folder whose names have this ending.
fn files_that_end<R: Files + AllocGlobal + Clone>(rt: &R, end: &str) -> anyhow::Result<usize> {
    let mut files = 0usize;
    for entry in fs::read_dir(rt, ".")? {
        if entry?.file_name().ends_with(end) {
            files = files.saturating_add(1);
        }
    }
    Ok(files)
}

/// Runs the script of the example, and compares the output with the stored output.
fn check<R: Files + AllocGlobal + Threads + Wait + Sync>(
    rt: &R,
    alloc: Global,
    example: Example,
) -> anyhow::Result<()> {
    let Example { name, form, .. } = example;
    let script = format!(in alloc; "{name}.txt")?;
    let answer = format!(in alloc; "{name}.out")?;
    let script = fs::read_to_string(rt, script.as_str()).context(name)?;
    let answer = fs::read_to_string(rt, answer.as_str()).context(name)?;
    compare(
        rt,
        alloc,
        form,
        script.as_str().as_bytes(),
        answer.as_str().as_bytes(),
    )
    .context(name)
}

/// Draws the script of the example, and compares the picture with the stored picture.
fn check_picture<R: Files + AllocGlobal>(
    rt: &R,
    alloc: Global,
    example: Example,
) -> anyhow::Result<()> {
    let Example { name, form, .. } = example;
    let script = format!(in alloc; "{name}.txt")?;
    let picture = format!(in alloc; "{name}.svg")?;
    let script = fs::read_to_string(rt, script.as_str()).context(name)?;
    let picture = fs::read_to_string(rt, picture.as_str()).context(name)?;
    compare_picture(
        alloc,
        form,
        script.as_str().as_bytes(),
        picture.as_str().as_bytes(),
    )
    .context(name)
}
