//! The threads that are made, and their stacks.
ghost use Rattle.std.specs.Prelude.{◌≡◌, ◌<◌, ◌≤◌, ◌^◌, ◌++◌, OnOk};
ghost use Rattle.plcr_make.specs.Stacks as stacks;
ghost use Rattle.plcr_make.specs.Stacks.{thread_command, stack_bytes, stacks_bytes};
ghost use Rattle.plcr_make.specs.declared.constants.TheConstants.{MOST_IMAGES, THREADS, FRAMES};

use crate::constants::{
    CODE_OFFSET, FIRST_STACK, FRAME_SIZE, FRAMES, STACK_SIZE, THREAD_COMMAND_SIZE, THREAD_STRIDE,
    THREADS, VM_PROT_READ_WRITE,
};
use crate::images::image_address;
use crate::numbers::{push_u32s, push_u64s};
use crate::segments::Segment;
use arrayvec::ArrayVec;
use plcr_loader::LC_THREAD;
use plcr_regs::{x86_THREAD_STATE64, x86_THREAD_STATE64_COUNT};
use std::alloc::AllocError;

/// Room for the command of a thread.
const COMMAND_ROOM: usize = THREAD_COMMAND_SIZE as usize;

/// The address of a thread's stack.
fn stack_address(t: u32) -> u64
    requires { t < THREADS }
    ensures { result ≡ stacks.stack_address t }
{
    FIRST_STACK + STACK_SIZE * u64::from(t)
}

/// Where a frame of a thread stands in code.
fn code_address(images: u32, t: u32, frame: u32) -> u64
    requires some { 1 ≤ images }
    requires thread { t < THREADS }
    requires frame { frame ≤ FRAMES }
    ensures { result ≡ stacks.code_address images t frame }
{
    image_address((THREAD_STRIDE * t + frame) % images) + CODE_OFFSET
}

/// Adds the command of a thread.
pub(crate) fn add_thread(bytes: &mut Vec<u8>, images: u32, t: u32) -> Result<(), AllocError>
    requires some { 1 ≤ images }
    requires thread { t < THREADS }
    ensures { OnOk result (bytes.new.items ≡ bytes.old.items ++ thread_command images t) }
{
    let head = [
        LC_THREAD,
        THREAD_COMMAND_SIZE,
        x86_THREAD_STATE64,
        x86_THREAD_STATE64_COUNT,
    ];
    let stack = stack_address(t);
    let code = code_address(images, t, 0);
    let mut command: ArrayVec<u8, COMMAND_ROOM> = ArrayVec::new();
    push_u32s(&mut command, &head);
    push_u64s(&mut command, &[0, 0, 0, 0, 0, 0, stack, stack]);
    push_u64s(&mut command, &[0, 0, 0, 0, 0, 0, 0, 0, code, 0, 0, 0, 0]);
    bytes.extend_from_slice(command.as_slice())
}

/// The word that a frame has first.
fn next_frame(t: u32, frame: u32) -> u64
    requires thread { t < THREADS }
    requires frame { frame < FRAMES }
    ensures { result ≡ stacks.next_frame t frame }
{
    if frame + 1 == FRAMES {
        0
    } else {
        stack_address(t) + FRAME_SIZE * u64::from(frame + 1)
    }
}

/// A word of a frame.
fn frame_word(images: u32, t: u32, frame: u32, i: u32) -> u64
    requires some { 1 ≤ images }
    requires thread { t < THREADS }
    requires frame { frame < FRAMES }
    ensures { result ≡ stacks.frame_word images t frame i }
{
    match i {
        0 => next_frame(t, frame),
        1 => code_address(images, t, frame + 1),
        _ => 0,
    }
}

/// A word of a thread's stack.
fn stack_word(images: u32, t: u32, i: u32) -> u64
    requires some { 1 ≤ images }
    requires thread { t < THREADS }
    ensures { result ≡ stacks.stack_word images t i }
{
    if i / 4 < FRAMES {
        frame_word(images, t, i / 4, i % 4)
    } else {
        0
    }
}

/// Adds the stack of a thread.
fn add_stack(bytes: &mut Vec<u8>, images: u32, t: u32) -> Result<(), AllocError>
    requires some { 1 ≤ images }
    requires thread { t < THREADS }
    ensures { OnOk result (bytes.new.items ≡ bytes.old.items ++ stack_bytes images t) }
{
    let words = (STACK_SIZE / 8) as u32;
    for i in 0..words {
        let word = stack_word(images, t, i);
        bytes.extend_from_slice(&word.to_le_bytes())?;
    }
    Ok(())
}

/// Adds all stacks.
pub(crate) fn add_stacks(bytes: &mut Vec<u8>, images: u32) -> Result<(), AllocError>
    requires { 1 ≤ images }
    ensures { OnOk result (bytes.new.items ≡ bytes.old.items ++ stacks_bytes images) }
{
    for t in 0..THREADS {
        add_stack(bytes, images, t)?;
    }
    Ok(())
}

/// The segment of the core with all stacks, whose bytes stand at a place.
pub(crate) fn stacks_segment(place: u64) -> Segment
    ensures { result ≡ stacks.stacks_segment place }
{
    Segment {
        name: [0; 16],
        address: FIRST_STACK,
        memory_size: STACK_SIZE * u64::from(THREADS),
        file_offset: place,
        file_size: STACK_SIZE * u64::from(THREADS),
        protection: VM_PROT_READ_WRITE,
    }
}
