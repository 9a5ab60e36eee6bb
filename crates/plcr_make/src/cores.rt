//! The core that is made.
ghost use Rattle.std.specs.Prelude.{◌≡◌, ◌<◌, ◌≤◌, ◌^◌, ◌++◌, IfOk, OnOk};
ghost use Rattle.plcr_make.specs.declared.constants.TheConstants.{MOST_IMAGES, THREADS};
ghost use Rattle.plcr_make.specs.Numbers.{joined};
ghost use Rattle.plcr_make.specs.Segments.{segment_command};
ghost use Rattle.plcr_make.specs.Images.{image_bytes};
ghost use Rattle.plcr_make.specs.Images as made;
ghost use Rattle.plcr_make.specs.Stacks.{thread_command};
ghost use Rattle.plcr_make.specs.Cores as cores;
ghost use Rattle.plcr_make.specs.Cores.{core_of};

use crate::constants::{IMAGE_BYTES, STACK_SIZE, THREAD_COMMAND_SIZE, THREADS};
use crate::images::{add_image, image_segment};
use crate::segments::{add_header, add_segment};
use crate::stack::{add_stacks, add_thread, stacks_segment};
use plcr_loader::{MH_CORE, mach_header_64, segment_command_64};
use std::alloc::{AllocError, Global};

/// The bytes of the core with so many images.
#[tactic(auto, unfolding(crate::specs::Cores::core_of))]
pub fn core_bytes(alloc: Global, images: u32) -> Result<Vec<u8>, AllocError>
    requires { (1 ≤ images) × (images ≤ MOST_IMAGES) }
    ensures { IfOk result (λ bytes. bytes.items ≡ core_of images) }
{
    let place = images_place(images);
    let stacks = place + IMAGE_BYTES * u64::from(images);
    let length = stacks + STACK_SIZE * u64::from(THREADS);
    let mut bytes = Vec::with_capacity(alloc, length as usize)?;
    add_header(
        &mut bytes,
        MH_CORE,
        images + 1 + THREADS,
        commands_size(images),
    )?;
    add_image_segments(&mut bytes, place, images)?;
    add_segment(&mut bytes, &stacks_segment(stacks))?;
    add_threads(&mut bytes, images)?;
    add_images(&mut bytes, images)?;
    add_stacks(&mut bytes, images)?;
    Ok(bytes)
}

/// How many bytes the load commands have.
fn commands_size(images: u32) -> u32
    requires { images ≤ MOST_IMAGES }
    ensures { result ≡ cores.commands_size images }
{
    segment_command_64::LENGTH as u32 * (images + 1) + THREAD_COMMAND_SIZE * THREADS
}

/// Where the bytes of the images begin.
fn images_place(images: u32) -> u64
    requires { images ≤ MOST_IMAGES }
    ensures { result ≡ cores.images_place images }
{
    mach_header_64::LENGTH as u64 + u64::from(commands_size(images))
}

/// Adds the segments of the images, whose bytes begin at a place.
fn add_image_segments(bytes: &mut Vec<u8>, start: u64, images: u32) -> Result<(), AllocError>
    requires { start < 2 ^ 32 }
    ensures { OnOk result (bytes.new.items ≡ bytes.old.items
        ++ joined (λ k. segment_command (made.image_segment start k)) images) }
{
    for k in 0..images {
        add_segment(bytes, &image_segment(start, k))?;
    }
    Ok(())
}

/// Adds the commands of the threads.
fn add_threads(bytes: &mut Vec<u8>, images: u32) -> Result<(), AllocError>
    requires { 1 ≤ images }
    ensures { OnOk result (bytes.new.items ≡ bytes.old.items ++ joined (thread_command images)
        THREADS) }
{
    for t in 0..THREADS {
        add_thread(bytes, images, t)?;
    }
    Ok(())
}

/// Adds the bytes of the images.
fn add_images(bytes: &mut Vec<u8>, images: u32) -> Result<(), AllocError>
    ensures { OnOk result (bytes.new.items ≡ bytes.old.items ++ joined image_bytes images) }
{
    for k in 0..images {
        add_image(bytes, k)?;
    }
    Ok(())
}
