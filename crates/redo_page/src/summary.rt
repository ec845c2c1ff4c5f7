//! The summary of a build: sizes, times, and the targets that took long, used much memory or have warnings.
use crate::labels::{
    AND_COUNT, AT_MOST, AT_ONCE, DEPENDENT, FAILED, FEW_TIMES_OF, LOGS, LONGEST, LONGEST_ALONE,
    MOST_MEMORY, MOST_WARNINGS, NO_TIMES, OF, PROCESSOR_TIME, SUM_OF_TIMES, SUMMARY, TARGETS,
    TIMES_UNKNOWN, TOOK, WARNED_LINES,
};
use crate::scope::Count::{Dependents, Known, Most, Roots, Targets, Unknown, Value, Warnings};
use crate::scope::Measure::{AtOnce, Duration, Memory, Processor, Size, Sum, Took};
use crate::scope::Rows::{Longest, LongestAlone, MostMemory, Warned};
use crate::scope::Test::{
    HasAlone, HasDependents, HasKnown, HasLongest, HasMemory, HasProcessor, HasTables, HasWarned,
    HasWindow, IsTimed,
};
use crate::template::Around::{Each, If, Unless};
use crate::template::Item::{Badge, EndTile, In, Link, Measure, Meter, Number, Tag, Text, Tile};
use crate::template::Template;
use redo_html::Markup::{
    Columns, DescriptionList, Div, EndCell, EndDescriptionList, EndDiv, EndHeading, EndParagraph,
    EndRowHeading, EndSection, EndTable, EndTableBody, EndTableRow, EndTitle3, MeterCell,
    NumberCell, QuietParagraph, RowHeading, SummaryHeading, SummarySection, Table, TableBody,
    TableRow, Title3,
};

/// The items of the section.
pub const SECTION: Template = &[
    Tag(SummarySection),
    Tag(SummaryHeading),
    Text(SUMMARY),
    Tag(EndHeading),
    Tag(DescriptionList),
    Tile(TARGETS),
    Number(Targets),
    EndTile,
    Tile(FAILED),
    Number(Roots),
    In(
        If(HasDependents),
        &[Text(AND_COUNT), Number(Dependents), Text(DEPENDENT)],
    ),
    EndTile,
    Tile(WARNED_LINES),
    Number(Warnings),
    EndTile,
    Tile(LOGS),
    Measure(Size),
    EndTile,
    In(If(HasWindow), &[Tile(TOOK), Measure(Took), EndTile]),
    In(
        If(IsTimed),
        &[
            Tile(SUM_OF_TIMES),
            Measure(Sum),
            EndTile,
            Tile(AT_ONCE),
            Measure(AtOnce),
            Text(AT_MOST),
            Number(Most),
            EndTile,
        ],
    ),
    In(
        If(HasProcessor),
        &[Tile(PROCESSOR_TIME), Measure(Processor), EndTile],
    ),
    Tag(EndDescriptionList),
    In(
        If(HasTables),
        &[
            Tag(Columns),
            In(
                If(HasLongest),
                &[
                    Tag(Div),
                    Tag(Title3),
                    Text(LONGEST),
                    Tag(EndTitle3),
                    Tag(Table),
                    Tag(TableBody),
                    In(
                        Each(Longest),
                        &[
                            Tag(TableRow),
                            Tag(RowHeading),
                            Link,
                            Badge,
                            Tag(EndRowHeading),
                            Tag(NumberCell),
                            Measure(Duration),
                            Tag(EndCell),
                            Tag(MeterCell),
                            Meter,
                            Tag(EndCell),
                            Tag(EndTableRow),
                        ],
                    ),
                    Tag(EndTableBody),
                    Tag(EndTable),
                    Tag(EndDiv),
                ],
            ),
            In(
                If(HasAlone),
                &[
                    Tag(Div),
                    Tag(Title3),
                    Text(LONGEST_ALONE),
                    Tag(EndTitle3),
                    Tag(Table),
                    Tag(TableBody),
                    In(
                        Each(LongestAlone),
                        &[
                            Tag(TableRow),
                            Tag(RowHeading),
                            Link,
                            Badge,
                            Tag(EndRowHeading),
                            Tag(NumberCell),
                            Measure(Duration),
                            Tag(EndCell),
                            Tag(MeterCell),
                            Meter,
                            Tag(EndCell),
                            Tag(EndTableRow),
                        ],
                    ),
                    Tag(EndTableBody),
                    Tag(EndTable),
                    Tag(EndDiv),
                ],
            ),
            In(
                If(HasMemory),
                &[
                    Tag(Div),
                    Tag(Title3),
                    Text(MOST_MEMORY),
                    Tag(EndTitle3),
                    Tag(Table),
                    Tag(TableBody),
                    In(
                        Each(MostMemory),
                        &[
                            Tag(TableRow),
                            Tag(RowHeading),
                            Link,
                            Badge,
                            Tag(EndRowHeading),
                            Tag(NumberCell),
                            Measure(Memory),
                            Tag(EndCell),
                            Tag(MeterCell),
                            Meter,
                            Tag(EndCell),
                            Tag(EndTableRow),
                        ],
                    ),
                    Tag(EndTableBody),
                    Tag(EndTable),
                    Tag(EndDiv),
                ],
            ),
            In(
                If(HasWarned),
                &[
                    Tag(Div),
                    Tag(Title3),
                    Text(MOST_WARNINGS),
                    Tag(EndTitle3),
                    Tag(Table),
                    Tag(TableBody),
                    In(
                        Each(Warned),
                        &[
                            Tag(TableRow),
                            Tag(RowHeading),
                            Link,
                            Badge,
                            Tag(EndRowHeading),
                            Tag(NumberCell),
                            Number(Value),
                            Tag(EndCell),
                            Tag(MeterCell),
                            Meter,
                            Tag(EndCell),
                            Tag(EndTableRow),
                        ],
                    ),
                    Tag(EndTableBody),
                    Tag(EndTable),
                    Tag(EndDiv),
                ],
            ),
            Tag(EndDiv),
        ],
    ),
    In(
        Unless(IsTimed),
        &[
            Tag(QuietParagraph),
            In(Unless(HasKnown), &[Text(NO_TIMES)]),
            In(
                If(HasKnown),
                &[
                    Text(FEW_TIMES_OF),
                    Number(Unknown),
                    Text(OF),
                    Number(Known),
                    Text(TIMES_UNKNOWN),
                ],
            ),
            Tag(EndParagraph),
        ],
    ),
    Tag(EndSection),
];
