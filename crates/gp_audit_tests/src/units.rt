//! What is told of the units at the end.
use crate::words::{audited, log_of, plain_options};
use gp_audit::AuditForm;
use gp_flow::LinesFault;
use std::process::Abort;
use std::test::Fail;

/// A log in which a unit comes to operate, another asks, and a code is garbled.
const LOG: &'static str = "\
1 up Serial_Number_ONU 255 ABCD00000001 0 0 @1000\n\
3 down Assign_ONU-ID 3 ABCD00000001\n\
1 grant range 3\n\
1 up Serial_Number_ONU 3 ABCD00000001 0 0 @1000\n\
3 down Ranging_Time 3 310040\n\
3 down Assign_Alloc-ID 3 256 keep\n\
1 grant poll 3\n\
1 up No_message 3 @1000\n\
1 up! No_message 3 @1000\n\
1 up Serial_Number_ONU 255 ABCD00000002 0 0";

/// What is told of it.
const TOLD: &'static str = "\
line 15: unit garbled: 0304000000000000000000009a, 9b should stand\n\
port 0: units 2, messages 3, codes up 5, grants 2, garbled 0 down 1 up\n\
unit ABCD00000001: operating, onu 3, eqd 310040, allocs 256, asked 1, assigned 1, ranged 1, lost 0, answers 2, \
last 1.750 ms, took 0.750 ms\n\
unit ABCD00000002: asking, asked 1, assigned 0, ranged 0, lost 0, answers 0, last 2.000 ms\n\
16 lines, 1 finding\n";

/// The same as JSON.
const AS_JSON: &'static str = "\
{\"line\":15,\"port\":0,\"side\":\"unit\",\"rule\":\"garbled\",\"message\":null,\"onu\":null,\"serial\":null,\
\"why\":\"9b should stand\"}\n\
{\"port\":0,\"units\":2,\"messages\":3,\"up\":5,\"grants\":2,\"garbled_down\":0,\"garbled_up\":1}\n\
{\"port\":0,\"serial\":\"ABCD00000001\",\"state\":\"operating\",\"onu\":3,\"eqd\":310040,\"allocs\":[256],\"asked\":1,\
\"assigned\":1,\"ranged\":1,\"lost\":0,\"answers\":2,\"last_ns\":1750000,\"took_ns\":750000}\n\
{\"port\":0,\"serial\":\"ABCD00000002\",\"state\":\"asking\",\"onu\":null,\"eqd\":null,\"allocs\":[],\"asked\":1,\
\"assigned\":0,\"ranged\":0,\"lost\":0,\"answers\":0,\"last_ns\":2000000,\"took_ns\":null}\n\
{\"lines\":16,\"findings\":1,\"errors\":0}\n";

/// Checks what is told in a form.
fn assert_told(
    rt: &(impl AllocGlobal + Abort),
    form: AuditForm,
    wanted: &str,
) -> Result<(), LinesFault> {
    let mut options = plain_options();
    options.form = form;
    options.units = true;
    let log = log_of(rt.alloc(), LOG)?;
    let told = audited(rt.alloc(), &options, log.as_slice())?;
    assert_eq!(rt; std::str::from_utf8(told.as_slice()), Ok(wanted));
    Ok(())
}

#[test]
fn as_text(rt: HostRuntime) -> Result<(), Fail> {
    assert_told(&rt, AuditForm::Text, TOLD)?;
    Ok(())
}

#[test]
fn as_json(rt: HostRuntime) -> Result<(), Fail> {
    assert_told(&rt, AuditForm::Json, AS_JSON)?;
    Ok(())
}
