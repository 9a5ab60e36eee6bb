ghost use Rattle.std.specs.Prelude.{◌≡◌, ◌<◌, ℕ, List, Ok, Err, Some, None, length, option_map};
ghost use Rattle.plcr_loader.specs.Commands.{IsPlain};
ghost use Rattle.plcr_memory.specs.Regions.{Contents};
ghost use Rattle.plcr_regs.specs.declared.arch.Arch.{Arch};
ghost use Rattle.plcr_macho.specs.declared.image.Image.{Image};
ghost use Rattle.plcr_macho.specs.Sources.{memory_bytes};
ghost use Rattle.plcr_macho.specs.Loading.{image_at};
ghost use Rattle.plcr_macho.specs.declared.image.ImageFault.{ImageFault};
ghost use Rattle.plcr_macho.specs.Images.{Listed, listed_at};
ghost use Rattle.plcr_macho.specs.Containing.{first_over};
ghost use Rattle.plcr_macho.specs.Index.{index_of, located};
ghost use Rattle.plcr_macho.specs.Laws.{IsFirstFault, IsLaidOut, HasAddress, IsFirstOver};

/// What an image in memory is: its header, then the commands that lie one after the other behind
/// it, and what these say.
pub fn images_lie()
    // An image that is found lies so.
    ensures found { (memory : Contents) (arch : Arch) (header : ℕ) (image : Image) →
        image_at memory arch header ≡ Ok image → IsLaidOut memory arch header image }

    // An image that lies so is found.
    ensures only { (memory : Contents) (arch : Arch) (header : ℕ) (image : Image) →
        IsLaidOut memory arch header image → image_at memory arch header ≡ Ok image }

    // Where none is found, the fault is the first one there.
    ensures first { (memory : Contents) (arch : Arch) (header : ℕ) (fault : ImageFault) →
        image_at memory arch header ≡ Err fault → IsFirstFault memory arch header fault }

    // The bytes of a memory are what the list of load commands is told of.
    ensures memory { (memory : Contents) (start : ℕ) → IsPlain (memory_bytes memory start) }
{}

/// Which image of a list has an address: the first that can be read and has it in its `__TEXT`.
pub fn images_hold()
    // The image that is found stands at its index and has the address, and none before it has.
    ensures found { (memory : Contents) (arch : Arch) (address : ℕ) (images : List Listed)
        (index : ℕ) (image : Image) →
        first_over memory arch address 0 images ≡ Some (index, image) →
        IsFirstOver memory arch address images index image }

    // An image that stands so is found.
    ensures only { (memory : Contents) (arch : Arch) (address : ℕ) (images : List Listed)
        (index : ℕ) (image : Image) →
        IsFirstOver memory arch address images index image →
        first_over memory arch address 0 images ≡ Some (index, image) }

    // Where none is found, none of the list has the address.
    ensures none { (memory : Contents) (arch : Arch) (address : ℕ) (images : List Listed) →
        first_over memory arch address 0 images ≡ None → (k : ℕ) → k < length images →
        (image : Image) → ¬ HasAddress memory arch address (listed_at images k).header image }
{}

/// What an index tells: the place of the first image of the list that can be read and has the
/// address in its `__TEXT`.
pub fn indexes_tell()
    ensures { (memory : Contents) (arch : Arch) (address : ℕ) (images : List Listed) →
        located (Some (index_of memory arch images)) address
        ≡ option_map (λ found. found.0) (first_over memory arch address 0 images) }
{}
