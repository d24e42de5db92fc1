// The question `zone`, file 6, lat and lon of a point in millionths of a degree, a vehicle type and a moment: the rule that holds there.
use crate::questions::TABLE;
use crate::{hex, number, print};
use std::io;
use std::io::Write;
use word::refusal::Refusal;
use zone::{Rule, zone_rule};

pub fn ask(words: &[&[u8]], room: &mut [u8]) -> Option<Result<Rule, Refusal>> {
    let [file, lat, lon, type_id, moment] = words else {
        return None;
    };
    let (file, room) = hex::decode(file, room)?;
    let (type_id, _) = hex::decode(type_id, room)?;
    let lat = number::parse_signed(lat)?;
    let lon = number::parse_signed(lon)?;
    let moment = number::parse(moment)?;
    Some(zone_rule(TABLE, file, lon, lat, type_id, moment))
}

pub fn print<W: Write>(out: &mut W, rule: Result<Rule, Refusal>) -> io::Result<()> {
    match rule {
        Ok(rule) => print_rule(out, rule),
        Err(refusal) => print::refusal(out, refusal),
    }
}

// The four values, a minus sign for one that no rule gives.
fn print_rule<W: Write>(out: &mut W, rule: Rule) -> io::Result<()> {
    print::found(out)?;
    write!(out, " {} {}", u8::from(rule.ride), u8::from(rule.through))?;
    match rule.speed {
        Some(speed) => write!(out, " {speed}")?,
        None => write!(out, " -")?,
    }
    match rule.parking {
        Some(parking) => write!(out, " {}", u8::from(parking))?,
        None => write!(out, " -")?,
    }
    writeln!(out)
}
