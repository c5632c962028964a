//! The lines that a reader takes, one after the other.
ghost use Rattle.std.specs.Prelude.{◌≡◌, OnOk};
ghost use Rattle.rtc_sdp_grammar.specs.declared.item.Item.TheVariants.{Media, Says, Malformed};
ghost use Rattle.rtc_sdp_reader.specs.Parting as parting;
ghost use Rattle.rtc_sdp_reader.specs.Putting as spec;
ghost use Rattle.rtc_sdp_reader.specs.Putting.{StepsTo};

use crate::{Place, Reader, Stage};
use rtc_sdp_grammar::{Attribute, Item, Level, MediaHead, Strict};
use rtc_sdp_values::SdpError;
use std::alloc::{AllocError, Global};

/// Whether what counts at a level counts here.
fn counts(level: Level, in_line: bool) -> bool
    ensures { result ≡ parting.counts level in_line }
{
    match level {
        Level::SessionLevel => !in_line,
        Level::MediaLevel => in_line,
        Level::AnyLevel => true,
    }
}

fn is_mid_fault(what: Strict) -> bool
    ensures { result ≡ parting.is_mid_fault what }
{
    match what {
        Strict::Mid => true,
        _ => false,
    }
}

fn names_line(attribute: &Attribute) -> bool
    ensures { result ≡ parting.names_line attribute.now }
{
    match attribute {
        Attribute::MidLine(_) => true,
        _ => false,
    }
}

impl Reader {
    fn with_origin(&mut self, id: u64)
        ensures { self.new ≡ spec.with_origin self.old id }
    {
        if self.id.is_none() {
            self.id = Some(id);
        }
    }

    fn take_first(&mut self, item: &Item) -> Result<(), SdpError>
        ensures { StepsTo result self.new (spec.take_first self.old item.now) }
    {
        match item {
            Item::Blank => Ok(()),
            Item::Version => {
                self.stage = Stage::AwaitOrigin;
                Ok(())
            }
            _ => Err(SdpError::Parse(self.number)),
        }
    }

    fn take_second(&mut self, item: &Item) -> Result<(), SdpError>
        ensures { StepsTo result self.new (spec.take_second self.old item.now) }
    {
        match item {
            Item::Blank => Ok(()),
            Item::Origin(id) => {
                self.with_origin(*id);
                self.stage = Stage::InSession;
                Ok(())
            }
            _ => Err(SdpError::Parse(self.number)),
        }
    }

    fn put_in_session(&mut self, level: Level, attribute: Attribute) -> Result<(), SdpError>
        ensures { StepsTo result self.new (spec.take_in_session self.old (Says level attribute)) }
    {
        if !counts(level, false) {
            drop(attribute);
            return Ok(());
        }
        self.session.put(attribute)?;
        Ok(())
    }

    fn take_in_session(&mut self, item: Item) -> Result<(), SdpError>
        ensures { StepsTo result self.new (spec.take_in_session self.old item) }
    {
        match item {
            Item::Blank | Item::Skipped | Item::Version => Ok(()),
            Item::Bad | Item::BadMedia => Err(SdpError::Parse(self.number)),
            Item::Origin(id) => {
                self.with_origin(id);
                Ok(())
            }
            Item::Media(head) => {
                self.begin(head);
                Ok(())
            }
            Item::Malformed(level, _) => {
                if counts(level, false) {
                    Err(SdpError::Parse(self.number))
                } else {
                    Ok(())
                }
            }
            Item::Says(level, attribute) => self.put_in_session(level, attribute),
        }
    }

    fn refuse(&mut self)
        ensures { self.new ≡ spec.refuse self.old }
    {
        if self.refused.is_none() {
            self.refused = Some(self.number);
        }
    }

    fn with_mid_counted(&mut self, is_one: bool)
        ensures { self.new ≡ spec.with_mid_counted self.old is_one }
    {
        if is_one {
            self.mids = self.mids.saturating_add(1);
        }
    }

    /// Takes a malformed attribute of a line part.
    fn refuse_here(&mut self, level: Level, what: Strict)
        ensures { self.new ≡ spec.refuse_here (spec.with_line_counted self.old (Malformed level what)) level }
    {
        self.with_mid_counted(is_mid_fault(what));
        if counts(level, true) {
            self.refuse();
        }
    }

    /// Takes an attribute of a line part.
    fn put_here(&mut self, level: Level, attribute: Attribute) -> Result<(), AllocError>
        ensures { OnOk result (self.new
            ≡ spec.put_here (spec.with_line_counted self.old (Says level attribute)) level attribute) }
    {
        self.with_mid_counted(names_line(&attribute));
        if !counts(level, true) {
            drop(attribute);
            return Ok(());
        }
        self.part.put(attribute)?;
        Ok(())
    }

    /// Takes an `m=` line, which ends a line part and begins one.
    fn follow(&mut self, alloc: Global, head: MediaHead) -> Result<(), SdpError>
        ensures { StepsTo result self.new (spec.take_in_line self.old (Media head)) }
    {
        if let Some(number) = self.part_refusal() {
            return Err(SdpError::Parse(number));
        }
        self.end(alloc)?;
        self.begin(head);
        Ok(())
    }

    fn take_in_line(&mut self, alloc: Global, item: Item) -> Result<(), SdpError>
        ensures { StepsTo result self.new (spec.take_in_line self.old item) }
    {
        match item {
            Item::Blank | Item::Skipped | Item::Version => {}
            Item::Bad => self.refuse(),
            Item::BadMedia => {
                return Err(SdpError::Parse(self.part_refusal().unwrap_or(self.number)));
            }
            Item::Origin(id) => self.with_origin(id),
            Item::Media(head) => return self.follow(alloc, head),
            Item::Malformed(level, what) => self.refuse_here(level, what),
            Item::Says(level, attribute) => self.put_here(level, attribute)?,
        }
        Ok(())
    }

    /// Takes what the next line says.
    pub(crate) fn take(&mut self, alloc: Global, item: Item) -> Result<(), SdpError>
        ensures { StepsTo result self.new (spec.step self.old item) }
    {
        let place = self.place();
        self.number = self.number.saturating_add(1);
        match place {
            Place::First => {
                let told = self.take_first(&item);
                drop(item);
                told
            }
            Place::Second => {
                let told = self.take_second(&item);
                drop(item);
                told
            }
            Place::Session => self.take_in_session(item),
            Place::Line => self.take_in_line(alloc, item),
        }
    }
}
