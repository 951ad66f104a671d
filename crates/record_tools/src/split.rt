//! Writes all game trees of a file, each into a file of its own.

use crate::parts::{first_tree, next_line_of_tree, part_length, text_after};
use counted_devices::Counting;
use run_parts::Status;
use sgf_text::{SgfFault, read_tree, write_bytes};
use std::alloc::{AllocError, Global};
use std::fs;
use std::fs::File;
use std::io::Write;
use std::rt::Files;
use tool_parts::{Output, write_record};

/// How far a file has been split.
#[derive(Drop)]
struct Progress {
    whole: usize,
    broken: usize,
    /// Why a file could not be written.
    failed: Option<String>,
}

/// Writes the trees of the text as 0001.sgf, 0002.sgf and so on in a folder, in one pass. A broken tree is reported on `notes`,
/// with its number and the byte at which it begins, and the next tree is looked for after it. No existing file is overwritten.
pub(crate) fn split_into<F: Files, N: Write>(
    alloc: Global,
    files: &F,
    folder: &str,
    text: &[u8],
    notes: &mut N,
) -> Result<Output, AllocError> {
    if fs::create_dir_all(files, folder).is_err() {
        return Ok(Output::Text(
            format!(in alloc; "failed: the folder {folder} cannot be made\n")?,
            Status::Failed,
        ));
    }
    let mut progress = Progress {
        whole: 0,
        broken: 0,
        failed: None,
    };
    let mut rest = text;
    for _part in 0..text.len() {
        if rest.is_empty() || progress.failed.is_some() {
            break;
        }
        let length = part_length(rest);
        let begin = text.len().saturating_sub(rest.len());
        split_part(
            alloc,
            files,
            folder,
            &rest[..length],
            begin,
            &mut progress,
            notes,
        )?;
        rest = text_after(rest, length);
    }
    outcome(alloc, progress)
}

/// Writes the trees of a part of the text, which begins at this byte.
fn split_part<F: Files, N: Write>(
    alloc: Global,
    files: &F,
    folder: &str,
    part: &[u8],
    begin: usize,
    progress: &mut Progress,
    notes: &mut N,
) -> Result<(), AllocError> {
    let mut rest = part;
    for _tree in 0..part.len() {
        if rest.is_empty() || progress.failed.is_some() {
            break;
        }
        let number = progress
            .whole
            .saturating_add(progress.broken)
            .saturating_add(1);
        let end = match read_tree(alloc, rest) {
            Ok((tree, end)) => {
                let path = format!(in alloc; "{folder}/{number:04}.sgf")?;
                if !write_file(files, path.as_str(), &tree) {
                    progress.failed = Some(path);
                }
                progress.whole = progress.whole.saturating_add(1);
                end
            }
            Err(SgfFault::NoTree) => rest.len(),
            Err(SgfFault::Memory) => return Err(AllocError),
            Err(fault) => {
                let passed = begin.saturating_add(part.len().saturating_sub(rest.len()));
                let place = passed.saturating_add(first_tree(rest));
                tell_broken(alloc, number, place, moved(fault, passed), notes)?;
                progress.broken = progress.broken.saturating_add(1);
                next_line_of_tree(rest)
            }
        };
        if rest.len() < end {
            break;
        }
        rest = text_after(rest, end);
    }
    Ok(())
}

/// Writes the tree to a new file, and returns whether it is there now. A file that was only begun is removed again.
fn write_file<F: Files>(files: &F, path: &str, tree: &sgf_text::Tree) -> bool {
    let Ok(file) = File::create_new(files, path) else {
        return false;
    };
    if write_record(&mut Counting::new(file), tree) == Status::Failed {
        let _ = fs::remove_file(files, path);
        return false;
    }
    true
}

/// The fault of a text that begins at this byte of the file.
fn moved(fault: SgfFault, begin: usize) -> SgfFault {
    match fault {
        SgfFault::Syntax { at } => SgfFault::Syntax {
            at: at.saturating_add(begin),
        },
        other => other,
    }
}

/// Reports a tree that is broken.
fn tell_broken<N: Write>(
    alloc: Global,
    number: usize,
    place: usize,
    fault: SgfFault,
    notes: &mut N,
) -> Result<(), AllocError> {
    let text = format!(in alloc; "problem_tools: tree {number} at byte {place}: {fault}\n")?;
    let _ = write_bytes(text.as_bytes(), notes);
    Ok(())
}

/// What is said at the end.
fn outcome(alloc: Global, progress: Progress) -> Result<Output, AllocError> {
    let whole = progress.whole;
    let broken = progress.broken;
    if let Some(path) = progress.failed {
        let text = format!(in alloc; "failed: {path} is there already, or cannot be written\n")?;
        return Ok(Output::Text(text, Status::Failed));
    }
    if whole == 0 && broken == 0 {
        let text = format!(in alloc; "refused: no tree\n")?;
        return Ok(Output::Text(text, Status::Refused));
    }
    let text = format!(in alloc; "{whole} trees written, {broken} broken\n")?;
    let status = if broken == 0 {
        Status::Answered
    } else {
        Status::Refused
    };
    Ok(Output::Text(text, status))
}
