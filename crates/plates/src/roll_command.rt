// `plates roll`: the roll of each plate.
use anyhow::anyhow;
use plate_file::{Malformed, Plate, Quoted, parse_plate};
use roll::{Refusal, Roll, classify_channels};
use std::env::Args;
use std::{fs, io};
use thiserror::Error;
use units::{unit_at, unit_count};

// Why a plate gave no roll.
#[derive(Debug, Drop, Error)]
enum NoRoll {
    #[error("unreadable: {0}")]
    Unreadable(#[from] io::Error),
    #[error("malformed {0}")]
    Malformed(#[from] Malformed),
    #[error("{0}")]
    Refused(#[from] Refusal),
}

// Prints the roll of each file. A file that cannot be read or is refused does not stop the others.
pub fn roll_command(rt: &HostRuntime, files: Args) -> anyhow::Result<()> {
    let mut roll = Roll::new(rt.alloc())?;
    let tried = files.len();
    if tried == 0 {
        return Err(anyhow!("name the plate files to read"));
    }
    // Counted in the loop, which a failed write ends: no chain would be plainer.
    let mut failed = 0usize;
    for file in files {
        println!(rt; "plate {file}")?;
        match read_plate(rt, &mut roll, file.as_str()) {
            Ok(plate) => print_roll(rt, &plate, &roll)?,
            Err(why) => {
                println!(rt; "{why}")?;
                failed = failed.saturating_add(1);
            }
        }
    }
    if failed > 0 {
        return Err(anyhow!(format!(in rt.alloc(); "{failed} of {tried} plates gave no roll")?));
    }
    Ok(())
}

// The plate of a file, with the roll filled from it.
fn read_plate(rt: &HostRuntime, roll: &mut Roll, file: &str) -> Result<Plate, NoRoll> {
    let bytes = fs::read(rt, file)?;
    let plate = parse_plate(rt.alloc(), bytes.as_slice())?;
    classify_channels(roll, &plate.chunk())?;
    Ok(plate)
}

fn print_roll(rt: &HostRuntime, plate: &Plate, roll: &Roll) -> io::Result<()> {
    print_channels(rt, plate, roll)?;
    for (k, triplet) in roll.triplets().iter().enumerate() {
        println!(rt; "triplet {k} channels {triplet}")?;
    }
    print_units(rt, roll)
}

fn print_channels(rt: &HostRuntime, plate: &Plate, roll: &Roll) -> io::Result<()> {
    let chunk = plate.chunk();
    for (i, (channel, info)) in chunk.channels.iter().zip(roll.channels()).enumerate() {
        // A plate's names lie in its text.
        let name = Quoted(channel.name.get(chunk.text).unwrap_or(&[]));
        println!(rt;
            "channel {i} {name} {} {} {}x{}",
            info.sample_type, info.scheme, info.width, info.height
        )?;
    }
    Ok(())
}

fn print_units(rt: &HostRuntime, roll: &Roll) -> io::Result<()> {
    for k in 0..unit_count(roll) {
        if let Some(unit) = unit_at(roll, k) {
            println!(rt;
                "unit {k} {} size {}x{} blocks {}x{}",
                unit.channels,
                unit.width,
                unit.height,
                unit.blocks_wide(),
                unit.blocks_high()
            )?;
        }
    }
    Ok(())
}
