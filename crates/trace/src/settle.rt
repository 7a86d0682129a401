// The settings line of an input.
ghost use Rattle.trace.specs.Scan.{SettleMeets};

use super::step::Stop;
use peer_message_policy::policy::PeerMessagePolicy;
use trace_lines::settings::parse_settings;

// The policy that the settings line with this number asks for, its rows in the table.
pub(crate) fn settle(line: &[u8], number: u64, table: &mut [u8]) -> Result<PeerMessagePolicy, Stop>
    ensures { SettleMeets line.now number table.old result table.new }
{
    let Some(config) = parse_settings(line) else {
        return Err(Stop::BadLine(number));
    };
    match PeerMessagePolicy::new(config, table) {
        Ok(policy) => Ok(policy),
        Err(refusal) => Err(Stop::Refused(refusal)),
    }
}
