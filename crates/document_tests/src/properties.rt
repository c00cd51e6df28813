//! The calls, with ample memory.
use property_text::{CutValues, Values};
use res_base::{List, NoMemory, Text};
use std::alloc::Global;
use std::test::Fail;

/// A text so many times.
fn times(alloc: Global, count: usize, text: &str) -> Result<Text, NoMemory> {
    let mut made = Text::new(alloc);
    for _ in 0..count {
        made.push_str(text)?;
    }
    Ok(made)
}

/// Whether a text is filled to another one.
fn fills(
    alloc: Global,
    values: &CutValues<'_>,
    text: &Text,
    wanted: &str,
) -> Result<bool, NoMemory> {
    Ok(values.fill(alloc, text)?.as_str() == wanted)
}

/// Whether each text is filled to the one beside it.
fn fill_all(
    alloc: Global,
    values: &CutValues<'_>,
    rows: &[(&str, &str)],
) -> Result<bool, NoMemory> {
    for row in rows {
        if !fills(alloc, values, &Text::of(alloc, row.0)?, row.1)? {
            return Ok(false);
        }
    }
    Ok(true)
}

/// Names and values that the samples borrow.
#[derive(Drop)]
struct Texts {
    names: List<Text>,
    values: List<Text>,
    row: Text,
    wide: Text,
}

/// `1` to `32`, each with the next in its value, a row of empty ones, and a wide one.
fn make_texts(alloc: Global) -> Result<Texts, NoMemory> {
    let mut names: List<Text> = List::new(alloc);
    let mut values: List<Text> = List::new(alloc);
    for number in 1..33u32 {
        names.push(Text::from_string(format!(in alloc; "{number}")?))?;
        let next = number + 1;
        values.push(Text::from_string(format!(in alloc; "${{{next}}}")?))?;
    }
    Ok(Texts {
        names,
        values,
        row: times(alloc, 31, "${none}")?,
        wide: times(alloc, 65535, ".")?,
    })
}

/// `1` to `33`, each with the next in its value, and short, wide, endless and empty ones.
fn sample<'a>(alloc: Global, texts: &'a Texts) -> Result<CutValues<'a>, NoMemory> {
    let mut values: Values<'a> = Values::new(alloc);
    let chain = texts.names.as_slice().iter().zip(texts.values.as_slice());
    for (name, value) in chain {
        values = values.with(name.as_str(), value.as_str())?;
    }
    let values = values
        .with("33", "x")?
        .with("33", "y")?
        .with("v", "${v}")?
        .with("none", "")?
        .with("row", texts.row.as_str())?
        .with("wide", texts.wide.as_str())?;
    CutValues::of(alloc, values)
}

#[test]
fn fills_texts(rt: HostRuntime) -> Result<(), Fail> {
    let alloc = rt.alloc();
    let texts = make_texts(alloc)?;
    let values = sample(alloc, &texts)?;
    let rows = [
        ("a$b{33}", "a$b{33}"),
        ("<${32}>${33}${none}.", "<x>x."),
        ("${z}${33}${3${33}${33}", "${z}x${3${33}x"),
        ("${33}${33", "x${33"),
        ("$ $$ $${33}$", "$ $$ $x$"),
        ("ä${33}€", "äx€"),
        ("${33}${v}", "${33}${v}"),
        ("${2}", "x"),
        ("${2}${1}", "${2}${1}"),
    ];
    let all = fill_all(alloc, &values, &rows)?;
    assert!(rt; all);
    Ok(())
}

#[test]
fn keeps_limits(rt: HostRuntime) -> Result<(), Fail> {
    let alloc = rt.alloc();
    let texts = make_texts(alloc)?;
    let values = sample(alloc, &texts)?;
    // 32 replacements each.
    let most = times(alloc, 32, "${row}")?;
    let mut more = times(alloc, 32, "${row}")?;
    more.push_str("${none}")?;
    let counted = fills(alloc, &values, &most, "")? && fills(alloc, &values, &more, more.as_str())?;
    let full = values.fill(alloc, &Text::of(alloc, "${wide}${33}")?)?;
    let past = fill_all(
        alloc,
        &values,
        &[
            ("${wide}${33}${none}.", "${wide}${33}${none}."),
            ("${wide}${z}", "${wide}${z}"),
        ],
    )?;
    assert!(rt; counted && full.len() == 65536 && past);
    Ok(())
}
