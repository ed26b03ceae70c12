// The text of how late trains can be.
ghost use Rattle.std.specs.Prelude.{◌≡◌, ◌<◌, ◌++◌, All, length, OnOk, IfOk};
ghost use Rattle.shunt_report.specs.defs.DelaysTexts.{stop_words, delay_line, delays_of};

use crate::found::push_two;
use shunt_delay::{Delay, Stop};
use shunt_instance::Instance;
use shunt_text::Text;
use std::alloc::{AllocError, Global};

// What stops a train from being later.
fn push_stop(text: &mut Text, stop: Stop) -> Result<(), AllocError>
    ensures { OnOk result (text.new ≡ text.old ++ stop_words stop) }
{
    match stop {
        Stop::Limit => text.push(b"limit"),
        Stop::TooSoon { id } => {
            text.push(b"too-soon ")?;
            text.push_number(u64::from(id))
        }
        Stop::Crossing { first, second } => {
            text.push(b"crossing ")?;
            push_two(text, u64::from(first), u64::from(second))
        }
        Stop::TooLong { id, load } => {
            text.push(b"too-long ")?;
            push_two(text, u64::from(id), load)
        }
    }
}

fn push_delay(text: &mut Text, instance: &Instance, delay: Delay) -> Result<(), AllocError>
    requires { delay.train.0 < length instance.now.arrive }
    ensures { OnOk result (text.new ≡ text.old ++ delay_line instance.now delay) }
{
    text.push(b"delay ")?;
    text.push(instance.arrive(delay.train).name.bytes())?;
    text.push(b" ")?;
    text.push_number(u64::from(delay.minutes))?;
    text.push(b" ")?;
    push_stop(text, delay.stop)?;
    text.push(b"\n")
}

/// How late the trains of a plan can be: for each delay in its order a line `delay TRAIN D` that ends with `limit`, `too-soon ID`,
/// `crossing ID ID` or `too-long ID LOAD`, and last `delays NUMBER`.
///
/// Trains are told by name, delays in minutes, blocks by id and loads in dm. The trains are arriving trains of the instance. The error
/// is want of memory.
#[tactic(auto, unfolding(crate::specs::defs::DelaysTexts::delays_of))]
pub fn delays_text(
    alloc: Global,
    instance: &Instance,
    delays: &Vec<Delay>,
) -> Result<Vec<u8>, AllocError>
    requires { All (λ d. d.train.0 < length instance.now.arrive) delays.now.items }
    ensures { IfOk result (λ v. v.items ≡ delays_of instance.now delays.now.items) }
{
    let mut text = Text::new(alloc);
    for delay in delays {
        push_delay(&mut text, instance, *delay)?;
    }
    text.push(b"delays ")?;
    text.push_number(delays.len() as u64)?;
    text.push(b"\n")?;
    Ok(text.into_bytes())
}
