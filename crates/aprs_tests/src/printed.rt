//! Callsigns, moments and receivers as they are printed.

use aprs_ax25::Callsign;
use aprs_log::{Moment, Receiver};
use std::test::Fail;

#[test]
fn values_print_their_texts(rt: HostRuntime) -> Result<(), Fail> {
    let call = Callsign::parse(b"N0CALL-7").ok().ok_or("a callsign")?;
    let moment = Moment::new(1_714_564_800).ok_or("a moment")?;
    let receiver = Receiver::parse(b"RX_1").ok_or("a receiver")?;
    let plain = format!(in rt.alloc(); "{moment} {receiver} {call}")?;
    assert!(rt; plain.as_str() == "2024-05-01T12:00:00.000Z RX_1 N0CALL-7");
    let padded = format!(in rt.alloc(); "{moment:>26}|{receiver:<6}|{call:>9}")?;
    assert!(rt; padded.as_str() == "  2024-05-01T12:00:00.000Z|RX_1  | N0CALL-7");
    Ok(())
}
