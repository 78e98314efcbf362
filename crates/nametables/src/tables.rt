// The rows of the four name tables, one table after the other. Written by data/names/make out of the lists beside it.

// Where the rows of text values begin.
pub const TEXT: usize = 0;

// Where the rows of number and yes/no values begin.
pub const NUMBER: usize = 95;

// Where the rows of bytes and GUID values begin.
pub const BYTES: usize = 209;

// Where the rows of control types begin.
pub const CONTROL_TYPE: usize = 218;

// Where they end.
pub const END: usize = 273;

// The ids; then where each name starts in the letters, and where the last one ends.
pub const INDEX: [u32; 547] = [
    0x0007, 0x0011, 0x0012, 0x0014, 0x0016, 0x0017, 0x001b, 0x0022, 0x0026, 0x0031, 0x0032, 0x003d,
    0x0048, 0x004c, 0x004d, 0x004e, 0x004f, 0x0050, 0x0052, 0x0053, 0x0054, 0x0055, 0x0056, 0x0057,
    0x005b, 0x005d, 0x0068, 0x0069, 0x006a, 0x006b, 0x006c, 0x006d, 0x006e, 0x0070, 0x0071, 0x0072,
    0x0073, 0x0074, 0x0075, 0x0076, 0x0077, 0x0078, 0x0079, 0x007a, 0x007b, 0x007c, 0x007d, 0x007e,
    0x007f, 0x0080, 0x0084, 0x0087, 0x0091, 0x009c, 0x00a0, 0x00da, 0x00de, 0x00df, 0x00e0, 0x00f0,
    0x00f5, 0x010a, 0x0112, 0x0130, 0x013d, 0x014b, 0x014d, 0x014e, 0x0157, 0x015a, 0x015b, 0x0161,
    0x0167, 0x0168, 0x0177, 0x0194, 0x01a9, 0x01aa, 0x01ab, 0x01ac, 0x01ad, 0x01ae, 0x01af, 0x01b0,
    0x01b1, 0x01b2, 0x01b3, 0x01b4, 0x01b5, 0x01b6, 0x01b7, 0x01b8, 0x01b9, 0x01ba, 0x01bb, 0x0002,
    0x0004, 0x0006, 0x0008, 0x0009, 0x000a, 0x000b, 0x000c, 0x000d, 0x000e, 0x000f, 0x0010, 0x0013,
    0x0019, 0x001c, 0x001d, 0x001e, 0x0021, 0x0023, 0x0024, 0x0025, 0x0029, 0x002a, 0x002c, 0x002d,
    0x002e, 0x0036, 0x0037, 0x0038, 0x003a, 0x003e, 0x0043, 0x0044, 0x0045, 0x0046, 0x0047, 0x004b,
    0x0059, 0x005a, 0x005c, 0x005e, 0x005f, 0x0061, 0x0065, 0x006f, 0x0081, 0x0082, 0x0083, 0x0088,
    0x008d, 0x008f, 0x0090, 0x0092, 0x0093, 0x0094, 0x0095, 0x0096, 0x0097, 0x0098, 0x009a, 0x009d,
    0x009e, 0x009f, 0x00a1, 0x00a2, 0x00a5, 0x00a6, 0x00a7, 0x00a8, 0x00c2, 0x00cc, 0x00db, 0x00dc,
    0x00dd, 0x00f3, 0x00f4, 0x0105, 0x0106, 0x0116, 0x0117, 0x011a, 0x0126, 0x012f, 0x0132, 0x0135,
    0x0139, 0x013a, 0x013e, 0x013f, 0x0146, 0x0149, 0x0150, 0x0154, 0x0155, 0x015c, 0x015e, 0x015f,
    0x0163, 0x0165, 0x016c, 0x0170, 0x0175, 0x017b, 0x0180, 0x0181, 0x0182, 0x0183, 0x0184, 0x0185,
    0x018c, 0x01a6, 0x01be, 0x01c2, 0x01c4, 0x0063, 0x0064, 0x00ab, 0x00bc, 0x00bd, 0x00be, 0x00bf,
    0x0178, 0x0179, 0x0064, 0x0065, 0x0066, 0x0067, 0x0068, 0x0069, 0x006a, 0x006b, 0x006c, 0x006d,
    0x006e, 0x006f, 0x0070, 0x0072, 0x0076, 0x0077, 0x007a, 0x007b, 0x007c, 0x0098, 0x009b, 0x009c,
    0x009d, 0x009e, 0x066a, 0x0a7a, 0x0b68, 0x0c64, 0x0d64, 0x0e65, 0x0f67, 0x126d, 0x136f, 0x1470,
    0x1666, 0x1898, 0x1899, 0x189a, 0x1998, 0x1999, 0x199a, 0x199d, 0x199e, 0x1b64, 0x1b65, 0x1b66,
    0x1b67, 0x1b68, 0x1b6a, 0x1b6d, 0x1b6f, 0x1b70, 0x1f9b, 0x1f9c, 0x247f, 0, 7, 14, 26, 30, 45,
    57, 70, 78, 84, 99, 115, 129, 138, 146, 152, 159, 167, 175, 182, 188, 197, 209, 220, 229, 238,
    251, 260, 267, 277, 288, 297, 308, 315, 325, 337, 345, 355, 366, 374, 383, 390, 401, 409, 421,
    432, 448, 463, 470, 476, 484, 496, 509, 523, 535, 552, 560, 567, 573, 583, 590, 596, 599, 604,
    619, 633, 640, 648, 661, 677, 687, 706, 713, 728, 741, 748, 754, 763, 775, 793, 800, 811, 828,
    846, 858, 870, 882, 897, 912, 928, 939, 950, 962, 974, 986, 998, 1007, 1020, 1030, 1041, 1052,
    1063, 1078, 1084, 1095, 1102, 1115, 1124, 1139, 1146, 1155, 1164, 1176, 1186, 1194, 1207, 1217,
    1222, 1227, 1233, 1246, 1257, 1261, 1270, 1276, 1287, 1292, 1303, 1313, 1327, 1338, 1351, 1363,
    1371, 1376, 1392, 1401, 1410, 1420, 1432, 1445, 1450, 1460, 1471, 1480, 1483, 1497, 1514, 1526,
    1537, 1544, 1555, 1560, 1572, 1582, 1591, 1601, 1611, 1623, 1642, 1661, 1672, 1683, 1695, 1704,
    1718, 1727, 1740, 1747, 1753, 1767, 1780, 1788, 1795, 1805, 1822, 1834, 1845, 1856, 1874, 1890,
    1903, 1916, 1942, 1965, 1979, 1993, 2002, 2018, 2029, 2037, 2051, 2064, 2072, 2079, 2087, 2103,
    2121, 2136, 2146, 2155, 2166, 2184, 2195, 2207, 2218, 2236, 2250, 2260, 2272, 2285, 2297, 2304,
    2315, 2321, 2331, 2342, 2346, 2353, 2358, 2367, 2371, 2376, 2389, 2401, 2409, 2420, 2436, 2443,
    2450, 2458, 2465, 2476, 2485, 2498, 2510, 2520, 2524, 2530, 2540, 2550, 2561, 2572, 2580, 2592,
    2605, 2610, 2615, 2624, 2629, 2636, 2644, 2651, 2655, 2661, 2671, 2681, 2687, 2699, 2711, 2722,
    2733, 2738, 2747, 2751, 2756, 2769, 2777, 2784, 2792, 2801, 2811, 2821, 2830,
];

// How many letters the names have.
pub const SIZE: usize = 2830;

// The names end to end.
pub const LETTERS: [u8; SIZE] = *b"\
    Picture\
    Caption\
    ColumnWidths\
    Name\
    EventProcPrefix\
    DefaultValue\
    ControlSource\
    FontName\
    Format\
    LinkChildFields\
    LinkMasterFields\
    ValidationText\
    InputMask\
    OLEClass\
    OnOpen\
    OnClose\
    OnDelete\
    OnFormat\
    OnPrint\
    OnPage\
    OnRetreat\
    BeforeUpdate\
    AfterUpdate\
    OnCurrent\
    RowSource\
    RowSourceType\
    OnKeyDown\
    OnKeyUp\
    OnKeyPress\
    OnMouseDown\
    OnMouseUp\
    OnMouseMove\
    OnTimer\
    OnActivate\
    OnDeactivate\
    OnChange\
    OnGotFocus\
    OnLostFocus\
    OnResize\
    OnUpdated\
    OnError\
    OnNotInList\
    OnNoData\
    BeforeInsert\
    AfterInsert\
    BeforeDelConfirm\
    AfterDelConfirm\
    OnClick\
    OnLoad\
    OnUnload\
    SourceObject\
    StatusBarText\
    ValidationRule\
    RecordSource\
    DatasheetFontName\
    HelpFile\
    OnEnter\
    OnExit\
    OnDblClick\
    MenuBar\
    Filter\
    Tag\
    Class\
    ShortcutMenuBar\
    ControlTipText\
    OrderBy\
    OnFilter\
    OnApplyFilter\
    HyperlinkAddress\
    ColumnInfo\
    HyperlinkSubAddress\
    Toolbar\
    FuriganaControl\
    PostalAddress\
    OnDirty\
    OnUndo\
    OnConnect\
    OnDisconnect\
    OnPivotTableChange\
    OnQuery\
    BeforeQuery\
    OnSelectionChange\
    OnCmdBeforeExecute\
    OnCmdChecked\
    OnCmdEnabled\
    OnCmdExecute\
    OnDataSetChange\
    BeforeScreenTip\
    AfterFinalRender\
    AfterRender\
    AfterLayout\
    BeforeRender\
    OnMouseWheel\
    OnViewChange\
    OnDataChange\
    AccessKey\
    SpecialEffect\
    AutoResize\
    BorderColor\
    BorderStyle\
    BorderWidth\
    BorderLineStyle\
    Bottom\
    BoundColumn\
    CanGrow\
    RepeatSection\
    CanShrink\
    RecordSelectors\
    Enabled\
    BackColor\
    BackStyle\
    AllowFilters\
    FontItalic\
    FontSize\
    FontUnderline\
    FontWeight\
    GridX\
    GridY\
    Height\
    AllowUpdating\
    Transparent\
    Left\
    LineSlant\
    Locked\
    OptionValue\
    Modal\
    LimitToList\
    AutoExpand\
    HideDuplicates\
    ColumnCount\
    DecimalPlaces\
    KeepTogether\
    SizeMode\
    PopUp\
    RowSourceTypeInt\
    MaxButton\
    MinButton\
    ControlBox\
    AutoActivate\
    TimerInterval\
    Right\
    RunningSum\
    ColumnHeads\
    TextAlign\
    Top\
    LayoutForPrint\
    FastLaserPrinting\
    ViewsAllowed\
    DefaultView\
    Visible\
    DisplayWhen\
    Width\
    ForceNewPage\
    ScrollBars\
    ListWidth\
    BreakLevel\
    ItemSuffix\
    OverlapFlags\
    DatasheetFontHeight\
    DatasheetFontWeight\
    ColumnOrder\
    ColumnWidth\
    ColumnHidden\
    RowHeight\
    TabularCharSet\
    ForeColor\
    HelpContextId\
    Default\
    Cancel\
    TextFontFamily\
    TabularFamily\
    TabIndex\
    TabStop\
    AutoCenter\
    NavigationButtons\
    DateGrouping\
    TripleState\
    CloseButton\
    DatasheetForeColor\
    PictureAlignment\
    PictureTiling\
    DividingLines\
    DatasheetGridlinesBehavior\
    DatasheetGridlinesColor\
    AllowAdditions\
    OldBorderStyle\
    OrderByOn\
    AllowAutoCorrect\
    PictureType\
    MultiRow\
    TabFixedHeight\
    TabFixedWidth\
    Vertical\
    IMEHold\
    RecSrcDt\
    KeyboardLanguage\
    AllowDesignChanges\
    IMESentenceMode\
    LeftMargin\
    TopMargin\
    LineSpacing\
    SubdatasheetHeight\
    RightMargin\
    BottomMargin\
    IsHyperlink\
    AllowDatasheetView\
    AsianLineBreak\
    GroupTable\
    FilterOnLoad\
    ObjectPalette\
    PaintPalette\
    OleData\
    PictureData\
    PrtMip\
    PrtDevMode\
    PrtDevNames\
    GUID\
    NameMap\
    Label\
    Rectangle\
    Line\
    Image\
    CommandButton\
    OptionButton\
    CheckBox\
    OptionGroup\
    BoundObjectFrame\
    TextBox\
    ListBox\
    ComboBox\
    SubForm\
    ObjectFrame\
    PageBreak\
    CustomControl\
    ToggleButton\
    TabControl\
    Page\
    Detail\
    PageHeader\
    PageFooter\
    GroupHeader\
    GroupFooter\
    CheckBox\
    ToggleButton\
    CommandButton\
    Label\
    Label\
    Rectangle\
    Image\
    TextBox\
    ComboBox\
    SubForm\
    Line\
    Detail\
    FormHeader\
    FormFooter\
    Detail\
    ReportHeader\
    ReportFooter\
    GroupHeader\
    GroupFooter\
    Label\
    Rectangle\
    Line\
    Image\
    CommandButton\
    CheckBox\
    TextBox\
    ComboBox\
    SubReport\
    PageHeader\
    PageFooter\
    EmptyCell";
