// Judging a snapshot by itself, whatever table it is to be read into: its layout, its settings, its load, its rows.
ghost use Rattle.std.specs.Prelude.{◌≡◌, ◌+◌, ◌*◌, ◌≤◌, length, Some};
ghost use Rattle.peer_rows.specs.Rows.{row_width};
ghost use Rattle.snapshot.specs.Form.{first, rows_place, rows_in};
ghost use Rattle.snapshot.specs.Snapshot.{settings_in, record_in, config_in, policy_in};

use super::form;
use peer_message_policy::policy::PeerMessagePolicy;
use peer_rows::row::ROW_WIDTH;
use peer_settings::config::PeerMessagePolicyConfig;
use refusal::Refusal;

// How many rows bytes of this length have, if they are a snapshot.
pub(crate) fn rows_in(snapshot: &[u8]) -> usize
    ensures { result ≡ rows_in first snapshot.now }
{
    if snapshot.len() < form::ROWS_PLACE {
        return 0;
    }
    (snapshot.len() - form::ROWS_PLACE) / ROW_WIDTH
}

// The settings of bytes that are laid out as a snapshot. Settings out of their range count as a wrong layout, and the other way round.
pub(crate) fn settings_in(snapshot: &[u8]) -> Option<PeerMessagePolicyConfig>
    ensures { result ≡ settings_in first snapshot.now }
{
    let kinds = form::kinds();
    let lengths = form::lengths(rows_in(snapshot));
    if !snapshot_layout::contents::laid_out(snapshot, &kinds, &lengths) {
        return None;
    }
    snapshot_settings::settings::read_settings(snapshot, form::SETTINGS_PLACE)
}

// The record is judged, then the rows.
fn record_in(snapshot: &[u8], policy: PeerMessagePolicy) -> Result<PeerMessagePolicy, Refusal>
    requires { rows_place first + row_width * policy.rows ≤ length snapshot.now }
    ensures { result ≡ record_in first snapshot.now policy }
{
    if !policy.is_sound() {
        return Err(Refusal::Unsound);
    }
    let rows = policy.rows as usize;
    if !peer_rows::walk::rows_sound(policy.config, &snapshot[form::ROWS_PLACE..], rows) {
        return Err(Refusal::Unsound);
    }
    Ok(policy)
}

// The settings' limit is judged, then the load, then the record and its rows.
fn policy_with(
    snapshot: &[u8],
    config: PeerMessagePolicyConfig,
) -> Result<PeerMessagePolicy, Refusal>
    requires { rows_place first + row_width * rows_in first snapshot.now ≤ length snapshot.now }
    ensures { result ≡ config_in first snapshot.now (Some config) }
{
    if config.max_tracked_peers > PeerMessagePolicyConfig::MAX_ROWS {
        return Err(Refusal::LimitTooLarge);
    }
    let Some(ingress) = snapshot_settings::load::read_load(snapshot, form::LOAD_PLACE) else {
        return Err(Refusal::Unsound);
    };
    let rows = rows_in(snapshot) as u64;
    record_in(
        snapshot,
        PeerMessagePolicy {
            config,
            ingress,
            rows,
        },
    )
}

// The policy that stands in the snapshot.
pub(crate) fn policy_in(snapshot: &[u8]) -> Result<PeerMessagePolicy, Refusal>
    ensures { result ≡ policy_in first snapshot.now }
{
    let Some(config) = settings_in(snapshot) else {
        return Err(Refusal::WrongLayout);
    };
    policy_with(snapshot, config)
}
