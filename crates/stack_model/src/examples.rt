//! Worked examples of attributes and of listed paths, by computation.
#![tactic(auto, unfolding(crate::proofs::Computing::stacks_on_literals))]

ghost use Rattle.stack_model.specs.Examples.{ModeExamples, DeviceExamples, SizeExamples, LayerExamples, LimitExamples, NestedExamples, RowModeExamples, RowExamples, LayerRowExamples, XattrExamples};

/// The mode of each kind.
pub fn modes_example()
    ensures { ModeExamples }
{}

/// The numbers of devices.
pub fn devices_example()
    ensures { DeviceExamples }
{}

/// Sizes and blocks.
pub fn sizes_example()
    ensures { SizeExamples }
{}

/// Paths of two layers, their numbers, and what lies above and below.
pub fn layers_example()
    ensures { LayerExamples }
{}

/// Nested directories: what each contains, and how many names they have.
pub fn nested_example()
    ensures { NestedExamples }
{}

/// Which bits of a mode a row gives.
pub fn row_modes_example()
    ensures { RowModeExamples }
{}

/// Attributes of nodes with and without a row.
pub fn rows_example()
    ensures { RowExamples }
{}

/// Modes and owners of two layers that both have rows.
pub fn layer_rows_example()
    ensures { LayerRowExamples }
{}

/// Extended attributes of nodes with and without a list.
pub fn xattrs_example()
    ensures { XattrExamples }
{}

/// The number of the limit.
pub fn limits_example()
    ensures { LimitExamples }
{}
