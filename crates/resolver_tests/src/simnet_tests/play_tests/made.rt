//! Worlds and scripts made from a seed.

use crate::simnet_tests::play_tests::dice::Dice;
use std::alloc::AllocError;

impl Dice {
    // One of these words.
    fn word(&mut self, words: &'static [&'static str]) -> &'static str {
        let place = self.roll(words.len() as u64) as usize;
        words.get(place).copied().unwrap_or("")
    }

    // These bytes in hexadecimal digits, of which one in so many fell otherwise.
    fn put_bytes(&mut self, text: &mut String, sides: u64, bytes: &[u8]) -> Result<(), AllocError> {
        for byte in bytes {
            let sent = if self.roll(sides) == 0 {
                u8::try_from(self.roll(256)).unwrap_or(0)
            } else {
                *byte
            };
            write!(text, "{sent:02x}")?;
        }
        Ok(())
    }
}

const MOST_ZONES: u64 = 6;

/// Zones in a tree: the first is the root, each other one lies right beneath an earlier one.
#[derive(Clone, Copy)]
pub struct Tree {
    zones: u64,
    // How the dice fell for the place of each.
    fell: u64,
    // Whether the server of each has its name in the next zone, where its address may have to be looked up.
    apart: bool,
    // The zone whose server has no address above it, if there is such a zone.
    dark: u64,
    // Whether each server has two addresses.
    twins: bool,
}

impl Tree {
    /// From three zones on up to the most.
    pub fn new(dice: &mut Dice) -> Tree {
        Tree {
            zones: dice.roll(MOST_ZONES - 2).saturating_add(3),
            fell: dice.roll(1 << 30),
            apart: dice.roll(3) == 0,
            dark: dice.roll(2 * MOST_ZONES),
            twins: dice.roll(2) == 0,
        }
    }

    // The zone right above.
    fn above(&self, zone: u64) -> u64 {
        (self.fell.wrapping_mul(zone) >> 8)
            .checked_rem(zone)
            .unwrap_or(0)
    }

    // The zone that follows.
    fn after(&self, zone: u64) -> u64 {
        zone.saturating_add(1).checked_rem(self.zones).unwrap_or(0)
    }

    // The labels of a zone's origin: `z2.z1.`, none for the root.
    fn put_labels(&self, text: &mut String, zone: u64) -> Result<(), AllocError> {
        let mut at = zone;
        for _ in 0..MOST_ZONES {
            if at > 0 {
                write!(text, "z{at}.")?;
                at = self.above(at);
            }
        }
        Ok(())
    }

    // A zone's origin.
    fn put_origin(&self, text: &mut String, zone: u64) -> Result<(), AllocError> {
        if zone == 0 {
            text.push_str(".")?;
        }
        self.put_labels(text, zone)
    }

    // A name of another zone, as a line's data.
    fn put_target(&self, text: &mut String, dice: &mut Dice, line: &str) -> Result<(), AllocError> {
        text.push_str(line)?;
        self.put_labels(text, dice.roll(self.zones))?;
        text.push_str("\n")
    }

    // The addresses of a zone's server, behind its name.
    fn put_addresses(&self, text: &mut String, zone: u64) -> Result<(), AllocError> {
        write!(text, " A 198.51.100.{zone}\n")?;
        if self.twins {
            write!(text, " A 198.51.100.{}\n", zone.saturating_add(100))?;
        }
        Ok(())
    }

    // What every zone has: a server, an address, a wildcard, an empty name, and aliases into other zones.
    fn put_records(&self, text: &mut String, dice: &mut Dice, zone: u64) -> Result<(), AllocError> {
        let ttl = dice.word(&["0", "1", "5", "60", "300"]);
        let denial = dice.word(&["0", "2", "60"]);
        write!(
            text,
            "\n$TTL {ttl}\n@ SOA ns h 1 2 3 4 {denial}\n@ NS ns\nwww A 192.0.2.{zone}\nns"
        )?;
        self.put_addresses(text, zone)?;
        text.push_str("*.wild TXT w\ndeep.er MX 5 www\ninner CNAME db.corp.\n")?;
        self.put_target(text, dice, "alias CNAME www.")?;
        self.put_target(text, dice, "chain CNAME alias.")
    }

    // The cut of a zone: its server, whose address is beside it, in the next zone, or nowhere.
    fn put_cut(&self, text: &mut String, child: u64) -> Result<(), AllocError> {
        if self.apart {
            write!(text, "z{child} NS far{child}.")?;
            self.put_labels(text, self.after(child))?;
            return text.push_str("\n");
        }
        write!(text, "z{child} NS ns.z{child}\n")?;
        if self.dark != child {
            write!(text, "ns.z{child}")?;
            self.put_addresses(text, child)?;
        }
        Ok(())
    }

    // The zones right beneath, and the addresses of the server that has its name here.
    fn put_cuts(&self, text: &mut String, zone: u64) -> Result<(), AllocError> {
        for child in 1..self.zones {
            if self.above(child) == zone {
                self.put_cut(text, child)?;
            }
            if self.apart && self.after(child) == zone {
                write!(text, "far{child}")?;
                self.put_addresses(text, child)?;
            }
        }
        Ok(())
    }

    // What a zone's server serves at one of its addresses.
    fn put_host(&self, text: &mut String, address: u64, zone: u64) -> Result<(), AllocError> {
        write!(text, "host 198.51.100.{address} ")?;
        self.put_origin(text, zone)?;
        text.push_str("\n")
    }

    fn put_zone(&self, text: &mut String, dice: &mut Dice, zone: u64) -> Result<(), AllocError> {
        text.push_str("zone ")?;
        self.put_origin(text, zone)?;
        self.put_records(text, dice, zone)?;
        self.put_cuts(text, zone)?;
        text.push_str("end\n")?;
        self.put_host(text, zone, zone)?;
        self.put_host(text, zone.saturating_add(100), zone)
    }

    /// The text of a world: these zones, each with a server of its own, and a local corp.
    pub fn put_world(&self, text: &mut String, dice: &mut Dice) -> Result<(), AllocError> {
        for zone in 0..self.zones {
            self.put_zone(text, dice, zone)?;
        }
        text.push_str(
            "local corp.\n$TTL 300\n@ SOA ns h 1 2 3 4 60\n@ NS ns\ndb A 10.0.0.5\nend\n",
        )?;
        text.push_str("hint 198.51.100.0\n")
    }

    // A client asks for a name that is there or not.
    fn put_ask(&self, text: &mut String, dice: &mut Dice) -> Result<(), AllocError> {
        let label = dice.word(&[
            "www.", "www.", "alias.", "chain.", "inner.", "x.wild.", "er.", "deep.er.", "none.",
            "ns.",
        ]);
        write!(text, "ask {label}")?;
        self.put_labels(text, dice.roll(self.zones))?;
        let kind = dice.word(&[
            " A", " A", " A", " CNAME", " TXT", " MX", " NS", " AAAA", " SOA",
        ]);
        let how = dice.word(&["\n", "\n", "\n", " tcp\n", " norec\n"]);
        text.push_str(kind)?;
        text.push_str(how)
    }

    // A client sends a query for www in a zone, of which all bytes, some or none fell otherwise.
    fn put_raw(&self, text: &mut String, dice: &mut Dice) -> Result<(), AllocError> {
        let sides = match dice.roll(3) {
            0 => 1,
            1 => 20,
            _ => 1_000,
        };
        let mut name = String::from_str(*text.allocator(), "www.")?;
        self.put_labels(&mut name, dice.roll(self.zones))?;
        text.push_str("raw ")?;
        dice.put_bytes(text, sides, b"\0\x01\x01\0\0\x01\0\0\0\0\0\0")?;
        for label in name.as_str().split('.') {
            dice.put_bytes(text, sides, &[u8::try_from(label.len()).unwrap_or(0)])?;
            dice.put_bytes(text, sides, label.as_bytes())?;
        }
        dice.put_bytes(text, sides, b"\0\x01\0\x01")?;
        text.push_str(dice.word(&["\n", " tcp\n"]))
    }

    // No server is heard while this many waits run out.
    fn put_silence(
        &self,
        text: &mut String,
        moment: &mut u64,
        waits: u64,
    ) -> Result<(), AllocError> {
        for _ in 0..waits {
            *moment = moment.saturating_add(1_000);
            write!(text, "at {}\ntick\n", *moment)?;
        }
        Ok(())
    }

    fn put_order(
        &self,
        text: &mut String,
        dice: &mut Dice,
        moment: &mut u64,
    ) -> Result<(), AllocError> {
        let number = dice.roll(60).saturating_add(1);
        match dice.roll(16) {
            0 | 1 | 2 | 3 => self.put_ask(text, dice),
            4 => self.put_raw(text, dice),
            5 | 6 | 7 => text.push_str("run\n"),
            8 => write!(text, "carry {number}\n"),
            9 => write!(text, "cut {number}\n"),
            10 => write!(text, "lose {number}\n"),
            11 => text.push_str("tick\n"),
            12 | 13 => self.put_silence(text, moment, dice.roll(5)),
            14 => write!(text, "at {}\n", dice.roll(4_000)),
            _ => {
                *moment = moment.saturating_add(dice.roll(100_000));
                write!(text, "at {}\n", *moment)
            }
        }
    }

    /// The text of a script of so many orders: asks and any bytes, replies in any order, again, truncated or lost, silence
    /// and a clock that steps.
    pub fn put_script(
        &self,
        text: &mut String,
        dice: &mut Dice,
        orders: u64,
    ) -> Result<(), AllocError> {
        let mut moment = 0;
        for _ in 0..orders {
            self.put_order(text, dice, &mut moment)?;
        }
        text.push_str("run\n")
    }
}
