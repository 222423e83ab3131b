//! The time zone of the system.

use crate::clock::Clock;
use jiff_tz::{SystemTimeZone, TimeZone, TimeZoneDatabase};
use std::fs;
use std::io::{self, ErrorKind};
use std::rt::{Env, Files};

/// The folder with a file for each zone.
const FOLDER: &str = "/usr/share/zoneinfo";

/// A time zone.
#[derive(Drop)]
pub struct Zone {
    system: SystemTimeZone,
    /// The zone that the variable `TZ` names, if it is the name of one.
    database: TimeZoneDatabase,
}

impl Zone {
    /// Reads the zone that the variable `TZ` names, or else `/etc/localtime`. A zone that cannot be read is UTC.
    pub fn read<R: Env + Files + AllocGlobal>(rt: &R) -> Zone {
        let system = match SystemTimeZone::read(rt) {
            Ok(system) => system,
            Err(_) => SystemTimeZone::Utc,
        };
        let mut database = TimeZoneDatabase::new(rt.alloc());
        if let SystemTimeZone::Name {
            name,
            file: None,
            ..
        } = &system
        {
            add_zone(rt, &mut database, name.as_str());
        }
        Zone { system, database }
    }

    /// A clock of this zone, at a second since 1970, and since the system's start if the system says that.
    pub fn clock(&self, now: u64, uptime: Option<u64>) -> Clock<'_> {
        let zone = match self.system.time_zone(&self.database) {
            Ok(zone) => zone,
            Err(_) => TimeZone::UTC,
        };
        Clock { zone, now, uptime }
    }
}

/// Adds the zone of a name, if its file can be read.
fn add_zone<R: Files + AllocGlobal>(rt: &R, database: &mut TimeZoneDatabase, name: &str) {
    if let Ok(bytes) = zone_file(rt, name) {
        // without the zone the clock is in UTC
        let _added = database.insert(name, bytes.as_slice());
    }
}

/// Reads the file of a zone.
fn zone_file<R: Files + AllocGlobal>(rt: &R, name: &str) -> io::Result<Vec<u8>> {
    let path = format!(in rt.alloc(); "{FOLDER}/{name}")?;
    regular_file(rt, path.as_str())
}

/// Reads a file, if it is a regular one.
fn regular_file<R: Files + AllocGlobal>(rt: &R, path: &str) -> io::Result<Vec<u8>> {
    if fs::metadata(rt, path)?.is_file() {
        fs::read(rt, path)
    } else {
        Err(ErrorKind::InvalidInput.into())
    }
}
