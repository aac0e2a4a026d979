// Examples at the borders of the rules.
#![tactic(auto)]

#[cfg(test)]
mod entries {
    use dates::{Date, date_of, day_of};
    use kinds::{Booking, Kind, Notice};
    use refusals::{Ground, Layer, Refusal};

    // What is told of bytes that are no entry of a kind.
    fn told<K: Kind + Drop>(bytes: &[u8]) -> Option<Refusal> {
        K::decode(bytes).err().map(|x| x.refusal())
    }

    // Refusal 2 with a place.
    fn at(place: u64) -> Option<Refusal> {
        Some(Refusal {
            number: 2,
            carried: place,
            layer: Layer::Kind,
        })
    }

    #[test]
    fn bookings(rt: HostRuntime) {
        assert_eq!(rt; told::<Booking>(&[0x03, 0xE7, 0, 0, 0, 0, 1, 0]), None);
        assert_eq!(rt; told::<Booking>(&[0x03, 0xE8, 0, 0, 0, 0, 1, 0]), at(0));
        assert_eq!(rt; told::<Booking>(&[0, 0, 0, 0, 0, 0, 1, 0]), at(0));
        assert_eq!(rt;
            told::<Booking>(&[0, 1, 0x8E, 0xAD, 0x8E, 0xAD, 1, 0]),
            at(2)
        );
        assert_eq!(rt; told::<Booking>(&[0, 1, 0, 1, 0, 0, 1, 0]), at(4));
        assert_eq!(rt; told::<Booking>(&[0, 1, 0, 1, 0x8E, 0xAD, 1, 0]), at(4));
        assert_eq!(rt; told::<Booking>(&[0, 1, 0, 0, 0, 0, 0, 0]), at(6));
        assert_eq!(rt; told::<Booking>(&[0, 1, 0, 0, 0, 0, 4, 200]), at(6));
        assert_eq!(rt; told::<Booking>(&[0, 1, 0, 0, 0x8E, 0xAC, 3, 99]), None);
        assert_eq!(rt; told::<Booking>(&[0, 1, 0, 0, 0, 0, 3, 100]), at(7));
    }

    #[test]
    fn lengths(rt: HostRuntime) {
        assert_eq!(rt; told::<Booking>(&[]), at(0));
        assert_eq!(rt; told::<Booking>(&[0; 7]), at(7));
        assert_eq!(rt; told::<Booking>(&[0; 9]), at(8));
        assert_eq!(rt; told::<Notice>(&[]), at(0));
        assert_eq!(rt; told::<Notice>(&[1; 4]), at(4));
        assert_eq!(rt; told::<Notice>(&[1; 6]), at(5));
    }

    #[test]
    fn notices(rt: HostRuntime) {
        assert_eq!(rt; told::<Notice>(&[1, 0x03, 0xE7, 0x8E, 0xAC]), None);
        assert_eq!(rt; told::<Notice>(&[1, 0, 0, 0, 0]), at(1));
        assert_eq!(rt; told::<Notice>(&[1, 0, 1, 0x8E, 0xAD]), at(3));
        assert_eq!(rt; told::<Notice>(&[2, 0, 1, 0, 0]), at(0));
        assert_eq!(rt; told::<Notice>(b"\x03AZAZ"), None);
        assert_eq!(rt; told::<Notice>(b"\x03@ZAZ"), at(1));
        assert_eq!(rt; told::<Notice>(b"\x03A[A["), at(2));
        assert_eq!(rt; told::<Notice>(b"\x03AZaZ"), at(3));
        assert_eq!(rt; told::<Notice>(b"\x03AZA0"), at(4));
    }

    #[test]
    fn days(rt: HostRuntime) {
        assert_eq!(rt;
            date_of(59),
            Date {
                year: 2000,
                month: 2,
                day: 29
            }
        );
        let last = date_of(36_524);
        assert_eq!(rt;
            last,
            Date {
                year: 2099,
                month: 12,
                day: 31
            }
        );
        assert_eq!(rt; day_of(last), Some(36_524));
        assert_eq!(rt; day_of(date_of(36_525)), None);
        assert_eq!(rt; day_of(date_of(9000)), Some(9000));
    }
}

#[cfg(test)]
mod stamps {
    use events::{Stamp, StampRefusal, StampTextRefusal};
    use refusals::{Ground, Layer, Refusal};
    use std::test::Fail;

    // What is told of a stamp that is refused.
    fn told(site: u8, number: u32) -> Option<Refusal> {
        Stamp::new(site, number).err().map(|x| x.refusal())
    }

    #[test]
    fn ranges(rt: HostRuntime) {
        let bad_site = Some(Refusal {
            number: 3,
            carried: 0,
            layer: Layer::Site,
        });
        let bad_number = Some(Refusal {
            number: 3,
            carried: 1,
            layer: Layer::Site,
        });
        assert_eq!(rt; told(1, 1), None);
        assert_eq!(rt; told(8, 1_000_000), None);
        assert_eq!(rt; told(0, 1), bad_site);
        assert_eq!(rt; told(9, 1), bad_site);
        assert_eq!(rt; told(0, 0), bad_site);
        assert_eq!(rt; told(1, 0), bad_number);
        assert_eq!(rt; told(1, 1_000_001), bad_number);
    }

    #[test]
    fn order(rt: HostRuntime) -> Result<(), Fail> {
        let a = Stamp::new(1, 1_000_000)?;
        let b = Stamp::new(2, 1)?;
        let c = Stamp::new(2, 2)?;
        assert!(rt; a < b && b < c && a < c);
        assert!(rt; a.is_below(b) && b.is_below(c) && a.is_below(c));
        assert!(rt; !b.is_below(a) && !c.is_below(b) && !b.is_below(b));
        assert!(rt; b.is_same(b) && !b.is_same(c) && !a.is_same(b));
        Ok(())
    }

    // The stamp that a text writes.
    fn read(text: &[u8]) -> Result<Stamp, StampTextRefusal> {
        Stamp::try_from(text)
    }

    #[test]
    fn text(rt: HostRuntime) -> Result<(), Fail> {
        let heap = rt.alloc();
        let text = format!(in heap; "{}", Stamp::new(3, 1)?)?;
        assert_eq!(rt; text.as_str(), "3.1");
        assert_eq!(rt; read(b"3.1")?, Stamp::new(3, 1)?);
        assert_eq!(rt; read(b"31"), Err(StampTextRefusal::Form));
        assert_eq!(rt; read(b".1"), Err(StampTextRefusal::Form));
        assert_eq!(rt; read(b"3."), Err(StampTextRefusal::Form));
        assert_eq!(rt; read(b"3.1.1"), Err(StampTextRefusal::Form));
        assert_eq!(rt;
            read(b"256.1"),
            Err(StampTextRefusal::Range(StampRefusal::Site))
        );
        assert_eq!(rt;
            read(b"1.4294967297"),
            Err(StampTextRefusal::Range(StampRefusal::Number))
        );
        Ok(())
    }
}
