//! Creates desks for lines that were just opened.
ghost use Rattle.std.specs.Prelude.{◌≡◌, ◌≤◌, ◌∷◌, ◌++◌, [], All, IfOk, IfErr, OnOk, MatchOption, length, map, vec_len};
ghost use Rattle.line_accounts.specs.Desks.{IsDeskOver};
ghost use Rattle.line_accounts.specs.NewDesks.{IsNewPort, IsColumn, IsUnpaid, AreDealt, AreEnough, GainEach, IsFirstShort, MayHaveNoDesks};

use crate::answer::OpenDesksError;
use crate::desk::Desk;
use crate::law::AccountLaw;
use qolb_model::LineSync;
use std::alloc::{AllocError, Global};

/// Makes `count` desks over these lines, each with one port of each line. Desk k has the port at place k of each line,
/// and ports beyond `count` are dropped. The call keeps the order of the lines.
///
/// It returns an error if a line has too few ports or if memory was refused, and then drops the lines and the ports.
pub fn open_desks<L: LineSync<AccountLaw> + Drop>(
    alloc: Global,
    opened: Vec<(L, Vec<L::Port>)>,
    count: usize,
) -> Result<(Vec<L>, Vec<Desk<L>>), OpenDesksError>
where
    L::Port: Drop,
    requires new { All (λ line. All (IsNewPort L.belongs L.view line.0) line.1.items) opened.items }
    ensures lines { IfOk result (λ made. made.0.items ≡ map (λ line. line.0) opened.items) }
    ensures len { IfOk result (λ made. vec_len made.1 ≡ count) }
    ensures over { IfOk result (λ made.
        All (IsDeskOver L.belongs L.view made.0.items) made.1.items) }
    ensures unpaid { IfOk result (λ made. All IsUnpaid made.1.items) }
    ensures dealt { IfOk result (λ made. AreDealt opened.items made.1.items) }
    ensures why { IfErr result (MayHaveNoDesks count opened.items) }
{
    if let Some(line) = first_short(&opened, count) {
        let line = line as u64;
        return Err(OpenDesksError::Few { line });
    }
    match distribute_ports(alloc, opened, count) {
        Ok(made) => Ok(made),
        Err(_) => Err(OpenDesksError::Memory),
    }
}

/// Returns the smallest line with fewer than `count` ports, or `None` if each line has enough.
fn first_short<L, P>(opened: &[(L, Vec<P>)], count: usize) -> Option<usize>
    ensures { MatchOption result (AreEnough count opened.now) (IsFirstShort count opened.now) }
{
    for i in 0..opened.len() {
        if opened[i].1.len() < count {
            return Some(i);
        }
    }
    None
}

/// Distributes the ports of the lines over `count` desks, one of each line to each desk.
fn distribute_ports<L: LineSync<AccountLaw> + Drop>(
    alloc: Global,
    opened: Vec<(L, Vec<L::Port>)>,
    count: usize,
) -> Result<(Vec<L>, Vec<Desk<L>>), AllocError>
where
    L::Port: Drop,
    requires new { All (λ line. All (IsNewPort L.belongs L.view line.0) line.1.items) opened.items }
    requires enough { AreEnough count opened.items }
    ensures lines { IfOk result (λ made. made.0.items ≡ map (λ line. line.0) opened.items) }
    ensures len { IfOk result (λ made. vec_len made.1 ≡ count) }
    ensures over { IfOk result (λ made.
        All (IsDeskOver L.belongs L.view made.0.items) made.1.items) }
    ensures unpaid { IfOk result (λ made. All IsUnpaid made.1.items) }
    ensures dealt { IfOk result (λ made. AreDealt opened.items made.1.items) }
{
    let mut columns = no_ports(alloc, count)?;
    let mut lines = Vec::with_capacity(alloc, opened.len())?;
    for (line, ports) in opened {
        add_line(&mut lines, &mut columns, line, ports)?;
    }
    let mut desks = Vec::with_capacity(alloc, count)?;
    for ports in columns {
        desks.push(Desk::new(ports))?;
    }
    Ok((lines, desks))
}

/// Returns `count` lists without a port.
fn no_ports<P: Drop>(alloc: Global, count: usize) -> Result<Vec<Vec<P>>, AllocError>
    ensures len { IfOk result (λ columns. vec_len columns ≡ count) }
    ensures empty { IfOk result (λ columns. All (λ ports. ports.items ≡ []) columns.items) }
{
    let mut columns = Vec::with_capacity(alloc, count)?;
    for column in 0..count {
        columns.push(Vec::new(alloc))?;
    }
    Ok(columns)
}

/// Adds the line, and the port at place k to list k.
fn add_line<L: LineSync<AccountLaw> + Drop>(
    lines: &mut Vec<L>,
    columns: &mut Vec<Vec<L::Port>>,
    line: L,
    ports: Vec<L::Port>,
) -> Result<(), AllocError>
where
    L::Port: Drop,
    requires columns { All (λ ports. IsColumn L.belongs L.view lines.old.items ports.items)
        columns.old.items }
    requires ports { All (IsNewPort L.belongs L.view line) ports.items }
    requires enough { vec_len columns.old ≤ vec_len ports }
    ensures lines { OnOk result (lines.new.items ≡ lines.old.items ++ line ∷ []) }
    ensures len { vec_len columns.new ≡ vec_len columns.old }
    ensures columns { OnOk result
        (All (λ ports. IsColumn L.belongs L.view lines.new.items ports.items) columns.new.items) }
    ensures gains { OnOk result (GainEach ports.items columns.old.items columns.new.items) }
{
    let mut ports = ports.into_iter();
    for column in columns.iter_mut() {
        let Some(port) = ports.next() else {
            unreachable!();
        };
        column.push(port)?;
    }
    lines.push(line)?;
    Ok(())
}
