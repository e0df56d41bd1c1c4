//! What the types of a configuration say of its fields.
ghost use Rattle.std.specs.Prelude.{◌≡◌, ◌<◌, ◌≤◌, ◌^◌, All, IsTrue, length};
ghost use Rattle.gp_laws.specs.Messages.{IsTypedConfig};
ghost use Rattle.gp_machine.specs.Config.{is_within_limits};

use gp_machine::PortConfig;
use gp_ploam::Serial;

/// States it of each configuration of a chassis.
pub(crate) fn configs_are_typed(configs: &[PortConfig])
    requires { All (λ config. IsTrue (is_within_limits config)) configs.now }
    ensures { All IsTypedConfig configs.now }
{
    for config in configs {
        config_is_typed(config);
    }
}

/// States it of a configuration.
fn config_is_typed(config: &PortConfig)
    requires { IsTrue (is_within_limits config.now) }
    ensures { IsTypedConfig config.now }
{
    fields_are_typed(config.overhead, config.teqd);
    serials_are_typed(config.admitted.as_slice());
}

/// States it of the fields that every value of their types meets.
fn fields_are_typed(overhead: [u8; 10], teqd: u32)
    ensures overhead { length overhead ≡ 10 }
    ensures delay { teqd < 2 ^ 32 }
{
    let _octets = overhead;
}

/// States that serial numbers have eight octets.
fn serials_are_typed(serials: &[Serial])
    ensures { All (λ serial. length serial.0 ≡ 8) serials.now }
{
    for serial in serials {
        serial_is_typed(*serial);
    }
}

/// States it of one.
fn serial_is_typed(serial: Serial)
    ensures { length serial.0 ≡ 8 }
{
    let _octets = serial.0;
}
