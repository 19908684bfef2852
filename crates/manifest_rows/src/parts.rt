//! A manifest in one line.
use ir_types::Bytes;
use manifest::Manifest;
use std::alloc::Global;

/// All parts of a manifest, names joined by commas.
pub fn parts_of(alloc: Global, manifest: &Manifest) -> anyhow::Result<String> {
    let modules = names_of(alloc, manifest.modules.as_slice())?;
    let entry = str::from_utf8(manifest.entry.as_slice()).unwrap_or("no text");
    let args = args_of(alloc, manifest.args.as_slice())?;
    let exports = names_of(alloc, manifest.exports.as_slice())?;
    let outside = names_of(alloc, manifest.outside.as_slice())?;
    let line = format!(in alloc;
        "modules={modules} entry={entry} args={args} exports={exports} outside={outside}"
    )?;
    Ok(line)
}

fn names_of(alloc: Global, names: &[Bytes]) -> anyhow::Result<String> {
    let mut line = String::new(alloc);
    for (at, name) in names.iter().enumerate() {
        if 0 < at {
            line.push(',')?;
        }
        line.push_str(str::from_utf8(name.as_slice()).unwrap_or("no text"))?;
    }
    Ok(line)
}

fn args_of(alloc: Global, args: &[Option<i128>]) -> anyhow::Result<String> {
    let mut line = String::new(alloc);
    for (at, arg) in args.iter().enumerate() {
        if 0 < at {
            line.push(',')?;
        }
        match arg {
            Some(number) => {
                let text = format!(in alloc; "{number}")?;
                line.push_str(text.as_str())?;
            }
            None => line.push_str("unknown")?,
        }
    }
    Ok(line)
}
