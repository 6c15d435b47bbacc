//! What is so of the code of each kernel's program.

ghost use Rattle.postless_code.specs.Laws.{KernelsPostNothing};

/// The lowered code of a kernel's program has no Post: each post is a call, and the two functions of the kernel post nothing.
pub fn kernels_post_nothing()
    ensures { KernelsPostNothing }
{}
