// The laws that follow from the definitions of a format's rows alone.
ghost use Rattle.format_compile.specs.FormatLaws.{CompiledFormatsHaveAllRows};
ghost use Rattle.format_compile.specs.FormatLaws.{CompiledFormatsHaveNoRefusal};
ghost use Rattle.format_compile.specs.FormatLaws.{FormatRefusalIsUnique};
ghost use Rattle.format_compile.specs.Instances.{SomeCourses};

/// A compiled format has as many rows as it asks for.
pub fn compiled_formats_have_all_rows()
    ensures { CompiledFormatsHaveAllRows }
{}

/// A compiled format has no cause of refusal except lack of memory.
pub fn compiled_formats_have_no_refusal()
    ensures { CompiledFormatsHaveNoRefusal }
{}

/// A format has at most one cause of refusal except lack of memory.
pub fn format_refusal_is_unique()
    ensures { FormatRefusalIsUnique }
{}

/// The rows between the ends of a horizontal format and two of its views, in each direction. A vertical
/// format asks for the same in both.
pub fn some_courses()
    ensures { SomeCourses }
{}
