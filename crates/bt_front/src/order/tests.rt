//! Tables of orders.

use crate::common_order;
use crate::order::common_order::has_common_order;
use crate::survey::chromosomes::{Chromosomes, Extent};
use bt_bed::Genome;
use bt_lines::{FromRead, Input, LineReader};
use std::alloc::{AllocError, Global};
use std::process::Abort;
use std::test::Fail;

// Chromosomes of names that spaces divide, each with a record that ends at 10.
pub(crate) fn chromosomes(alloc: Global, names: &str) -> Result<Chromosomes, AllocError> {
    let mut found = Chromosomes::new(alloc);
    for name in names.split(' ') {
        if !name.is_empty() {
            add_new(alloc, name.as_bytes(), &mut found)?;
        }
    }
    Ok(found)
}

// Adds one that isn't among them.
#[tactic(auto, using(crate::proofs::lemmas::survey::ChromosomeLemmas::ranked_among))]
fn add_new(alloc: Global, name: &[u8], found: &mut Chromosomes) -> Result<(), AllocError> {
    if found.place(name).is_some() {
        return Ok(());
    }
    found.add(alloc, name, Extent { start: 5, stop: 10 })
}

// A genome file of these bytes.
pub(crate) fn genome(alloc: Global, text: &[u8]) -> Result<Genome, Fail> {
    let mut lines = LineReader::new(alloc, FromRead::new(text), Input::Genome);
    Ok(Genome::read(alloc, &mut lines).ok().ok_or("a genome")?)
}

// The chromosomes of two inputs, and an order that fits both.
type Row = (&'static str, &'static str, Option<&'static str>);

const ROWS: [Row; 12] = [
    ("", "", Some("")),
    ("b a", "", Some("b a")),
    ("", "b a", Some("b a")),
    ("b a", "b a", Some("b a")),
    ("a b", "b a", None),
    ("a c", "b c", Some("a b c")),
    ("a", "b", Some("a b")),
    ("b a", "a c", Some("b a c")),
    ("d a", "x d y a z", Some("x d y a z")),
    ("p a q b r", "x a y b z", Some("p x a q y b r z")),
    ("a b c", "b x c a", None),
    ("a b c", "c x", Some("a b c x")),
];

// A genome file of the names that spaces divide.
fn lines(alloc: Global, names: &str) -> Result<Vec<u8>, AllocError> {
    let mut text = Vec::new(alloc);
    for name in names.split(' ') {
        if !name.is_empty() {
            text.extend_from_slice(name.as_bytes())?;
            text.extend_from_slice(b"\t999999999999\n")?;
        }
    }
    Ok(text)
}

#[test]
fn common_orders_are_found(rt: HostRuntime) -> Result<(), Fail> {
    for (first, second, want) in &ROWS {
        let ones = chromosomes(rt.alloc(), first)?;
        let others = chromosomes(rt.alloc(), second)?;
        let found = common_order(rt.alloc(), &ones, Some(&others))?;
        assert_eq!(rt;
            has_common_order(&ones, Some(&others)),
            want.is_some(),
            "{first}, {second}"
        );
        match (found, want) {
            (Some(text), Some(names)) => {
                let wanted = lines(rt.alloc(), names)?;
                assert_eq!(rt; text.as_slice(), wanted.as_slice(), "{first}, {second}");
            }
            (None, None) => {}
            _ => return Err(Fail::from("one of two")),
        }
    }
    Ok(())
}
