// Where the planes of a roll's lossy channels lie in the sample buffer.
ghost use Rattle.std.specs.Prelude.{◌≡◌, ◌≤◌, length};
ghost use Rattle.roll.specs.Kept.{Sides};
ghost use Rattle.units.specs.Units.{plane_area, PlaneAt, total_samples};

use channel_rules::ChannelInfo;
use roll::Roll;

fn plane_area(info: &ChannelInfo) -> usize
    requires { (info.now.width ≤ 8192) × (info.now.height ≤ 8192) }
    ensures value { result ≡ plane_area info.now }
    ensures bound { result ≤ 67108864 }
{
    if info.is_lossy() {
        info.width * info.height
    } else {
        0
    }
}

// How many samples the planes of these channels have together.
fn samples_of(infos: &[ChannelInfo]) -> usize
    requires few { length infos.now ≤ 64 }
    requires sides { Sides infos.now }
    ensures value { result ≡ total_samples infos.now }
{
    infos.iter().map(plane_area).sum()
}

// Where the plane of a lossy channel begins; None where the channel has no plane.
pub fn plane_start(roll: &Roll, channel: usize) -> Option<usize>
    ensures { PlaneAt roll.now.channels.items channel result }
{
    let infos = roll.channels();
    let has_plane = infos.get(channel)?.is_lossy();
    has_plane.then(|| samples_of(&infos[..channel]))
}

// How many samples all planes have together.
pub fn total_samples(roll: &Roll) -> usize
    ensures { result ≡ total_samples roll.now.channels.items }
{
    samples_of(roll.channels())
}
