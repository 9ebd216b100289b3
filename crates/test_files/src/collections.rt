//! What merges answer.

// What merges return, and copies.
use std::alloc::Global;
use std::test::Fail;
use test_samples::{EMPTY_MS, HUNDRED, NINETY};
use tws_best::Collection;
use tws_file::Ruleset;
use tws_reader::read_file;

pub(crate) fn load(alloc: Global, text: &[u8]) -> Result<Collection, Fail> {
    Ok(Collection::load(alloc, &read_file(alloc, text)?)?)
}

pub(crate) fn merge(alloc: Global, collection: &mut Collection, text: &[u8]) -> Result<bool, Fail> {
    let file = read_file(alloc, text)?;
    Ok(collection.merge(&file)?)
}

pub(crate) fn has_text(alloc: Global, collection: &Collection, wanted: &[u8]) -> bool {
    let mut text = Vec::new(alloc);
    collection.write_text(&mut text).is_ok() && text.as_slice() == wanted
}

// Merges four files after the one with 100 ticks, and returns whether only the second changed the collection.
fn second_alone_changes(alloc: Global, collection: &mut Collection) -> Result<bool, Fail> {
    let files: [(&[u8], bool); 4] = [
        (HUNDRED, false),
        (NINETY, true),
        (HUNDRED, false),
        (EMPTY_MS, false),
    ];
    for (file, is_changed) in files {
        if merge(alloc, collection, file)? != is_changed {
            return Ok(false);
        }
    }
    Ok(true)
}

// How many solutions and bytes of text a collection has, and its ruleset.
fn figures(collection: &Collection) -> (usize, u128, Ruleset) {
    (
        collection.len(),
        collection.text_len(),
        collection.ruleset(),
    )
}

#[test]
fn answers_of_merges(rt: HostRuntime) -> Result<(), Fail> {
    let mut collection = Collection::new(rt.alloc(), Ruleset::Lynx);
    let is_first = merge(rt.alloc(), &mut collection, HUNDRED)?;
    let are_right = is_first && second_alone_changes(rt.alloc(), &mut collection)?;
    let is_best = has_text(rt.alloc(), &collection, NINETY);
    assert_eq!(rt;
        (are_right, is_best, figures(&collection)),
        (true, true, (1, 28, Ruleset::Lynx))
    );
    Ok(())
}

// Merges files into a collection of the one with 100 ticks. Returns whether an early copy of it still has that one.
fn keeps_early_copy(alloc: Global, collection: &mut Collection) -> Result<bool, Fail> {
    let early = collection.copy()?;
    let is_changed = second_alone_changes(alloc, collection)?;
    Ok(is_changed && has_text(alloc, &early, HUNDRED))
}

#[test]
fn copies_stay(rt: HostRuntime) -> Result<(), Fail> {
    let mut collection = load(rt.alloc(), HUNDRED)?;
    assert!(rt; keeps_early_copy(rt.alloc(), &mut collection)?);
    Ok(())
}
